//! The network as it was when a request began.

use std::marker::Brand;

/// The network as it was when a request began, by which what is done for it is judged. Each call of `asked` picks it.
pub(crate) trait Begun {
    ghost use Rattle.x5_world.specs.State.{Net};

    ghost net: { Net };
}

impl Begun for Brand {
    ghost use Rattle.x5_world.specs.Sent.{no_net};

    ghost net = { no_net };
}
