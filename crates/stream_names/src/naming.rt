// How cases are named.
use crate::template::Template;

/// How cases are named: the core files that are stored (core(5), "Naming of core dump files"), and the executables that are looked for.
#[derive(Drop)]
pub struct Naming {
    /// The template of their names.
    pub template: Template,
    /// Whether `.` and the process are added to a name whose template does not show the process.
    pub uses_pid: bool,
    /// Whether the lines over a core's memory look for executables also under the names of the builds that the core gives, and not
    /// only under those of its paths.
    pub by_build: bool,
}
