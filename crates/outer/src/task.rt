// An outer product to be added to its tile, with what it reads: what the two walks share.
ghost use Rattle.std.proofs.Props.{props};
ghost use Rattle.outer.specs.Products.{Shaped, Ready};
ghost use Rattle.outer.specs.Walks.{Shaped-prop, GoodPredication-prop};

use crate::OuterProduct;

// On vectors of vb bytes: an outer product, the vector registers and the predicates.
#[derive(Clone, Copy)]
pub(crate) struct Task<'a> {
    pub(crate) vb: usize,
    pub(crate) o: OuterProduct,
    pub(crate) z: &'a [u8],
    pub(crate) p: &'a [u8],
    ghost shaped: { Shaped o.element o.products } by { Shaped-prop },
    ghost ready: { Ready o.element vb o z.now p.now } by { Prim.hlevel (props, GoodPredication-prop) },
}
