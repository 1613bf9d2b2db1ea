//! Shadowing agreements (X.525: shadowing agreements).

ghost use Rattle.std.specs.Prelude.{◌≡◌};

use std::alloc::AllocError;
use std::marker::Model;
use x5_names::Name;
use x5_ops::{AgentId, Listed};

/// An agreement by which the supplier keeps a copy of the context at the consumer. Its number is 1 to 1,000,000.
#[derive(Drop)]
pub struct Agreement {
    pub id: u32,
    pub supplier: AgentId,
    pub consumer: AgentId,
    pub context: Name,
}

impl Model for Agreement {
    ghost use Rattle.x5_model_tree.specs.World as world;

    ghost Value = { world.Agreement };

    ghost view = { λ a. record { number = a.id; supplier = a.supplier; consumer = a.consumer; context = a.context } };
}

/// Agreements in the order of the file.
pub type AgreementList = Listed<Agreement>;

impl Clone for Agreement {
    ghost is_clone = { λ a b. b ≡ a };

    fn clone(&self) -> Result<Agreement, AllocError> {
        Ok(Agreement {
            id: self.id,
            supplier: self.supplier,
            consumer: self.consumer,
            context: self.context.clone()?,
        })
    }
}
