//! A template has one cut into parts.
ghost use Rattle.std.specs.Prelude.{◌≡◌, ℕ, List};
ghost use Rattle.stream_names.specs.Template.{parts_of, IsCut};
ghost use Rattle.stream_names.specs.declared.part.Part.{Part};

/// The parts of which a template's text is joined are one cut of the template, and there is no other.
pub fn a_template_has_one_cut()
    ensures found { (template : List ℕ) → IsCut template (parts_of template) }
    ensures only { (template : List ℕ) (parts : List Part) → IsCut template parts → parts ≡ parts_of template }
{}
