// Terms in lent nodes: each node is free or belongs to exactly one held term.
#![tactic(auto)]

ghost use Rattle.node_store.specs.Memory.{memory};
ghost use Rattle.node_store.specs.Sound.{Sound};

use node_store::store::Store;

pub mod giving;
pub mod loading;
pub mod reducing;
pub mod viewing;

// Held terms and free nodes, in lent nodes.
#[derive(Drop)]
pub struct Pool<'n> {
    store: Store<'n>,
    ghost sound: { ∥ Sound (memory store) ∥₁ },
}
