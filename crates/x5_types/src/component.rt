//! Components of a SEQUENCE or SET: the types of their elements.
ghost use Rattle.std.specs.Prelude.{◌≡◌, ◌∷◌, []};
ghost use Rattle.x5_model_typed.specs.Forms as forms;
ghost use Rattle.x5_model_typed.specs.Judged as judged;
ghost use Rattle.x5_model_typed.specs.Layouts as layouts;
ghost use Rattle.x5_types.specs.FormView.{choices_view, component_view, named_view};

use crate::form::{Alternative, Choices, Component, Content, Named, Presence, Rule};
use crate::table::layout;

/// An explicit context tag around a type.
fn tagged(tag: u32, form: Named) -> Choices
    ensures { (w : layouts.Surroundings) → choices_view w result ≡ forms.context tag (forms.Explicit (named_view form)) ∷ [] }
{
    Choices::One(Alternative {
        class: 2,
        tag,
        marked: false,
        content: Content::Explicit(form),
        rule: Rule::Any,
    })
}

impl Component {
    /// The types that its elements are of.
    pub fn choices(self) -> Choices
        ensures { (w : layouts.Surroundings) → choices_view w result ≡ forms.alternatives (layouts.layout w) (component_view self) }
    {
        match self.tag {
            None => layout(self.form),
            Some(tag) => tagged(tag, self.form),
        }
    }

    /// Whether it need not be there.
    pub fn may_be_missing(self) -> bool
        ensures { result ≡ judged.may_be_missing (component_view self) }
    {
        matches!(self.presence, Presence::Default(_))
    }
}
