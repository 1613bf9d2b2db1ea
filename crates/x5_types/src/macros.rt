//! Shorter words for the rows of tables of types.

macro_rules! universal {
    ($tag:expr, $content:expr, $rule:expr) => {
        Alternative {
            class: 0,
            tag: $tag,
            marked: false,
            content: $content,
            rule: $rule,
        }
    };
}

macro_rules! choice {
    ($tag:expr, $content:expr) => {
        Alternative {
            class: 2,
            tag: $tag,
            marked: true,
            content: $content,
            rule: Rule::Any,
        }
    };
}

macro_rules! ruled_choice {
    ($tag:expr, $content:expr, $rule:expr) => {
        Alternative {
            class: 2,
            tag: $tag,
            marked: true,
            content: $content,
            rule: $rule,
        }
    };
}

macro_rules! context {
    ($tag:expr, $content:expr) => {
        Alternative {
            class: 2,
            tag: $tag,
            marked: false,
            content: $content,
            rule: Rule::Any,
        }
    };
}

macro_rules! application {
    ($marked:expr, $tag:expr, $content:expr) => {
        Alternative {
            class: 1,
            tag: $tag,
            marked: $marked,
            content: $content,
            rule: Rule::Any,
        }
    };
}

macro_rules! component {
    ($tag:expr, $form:expr, $presence:expr) => {
        Component {
            tag: $tag,
            form: $form,
            presence: $presence,
        }
    };
}

pub(crate) use application;
pub(crate) use choice;
pub(crate) use component;
pub(crate) use context;
pub(crate) use ruled_choice;
pub(crate) use universal;
