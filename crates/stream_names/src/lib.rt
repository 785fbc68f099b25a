//! The streams that lines of a script begin, and their names. And the names of core files, as core(5) makes them of a template.
#![tactic(auto)]

mod facts;
mod laws;
mod names;
mod naming;
mod part;
mod streams;
mod template;
mod text;

pub use facts::Facts;
pub use laws::a_template_has_one_cut;
pub use names::{NewStream, copied};
pub use naming::Naming;
pub use part::Part;
pub use streams::{core_stream, exec_stream};
pub use template::{Name, NameFault, Template, TemplateFault};
