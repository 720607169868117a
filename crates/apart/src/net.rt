// What the check goes through.
ghost use Rattle.std.specs.Prelude.{◌≤◌};
ghost use Rattle.matrix.specs.Held.{held};
ghost use Rattle.plan.specs.Sound.{max_distance};
ghost use Rattle.shape.specs.Code.Shape.{PlanLists};
ghost use Rattle.apart.specs.Code.Net.{IsGraph};

use matrix::lists::Matrix;
use plan::lists::Plan;

// Row starts and columns that are those of a matrix; its values are not looked at.
#[derive(Clone, Copy)]
pub struct Net<'a> {
    pub m: Matrix<'a>,
    ghost graph: { IsGraph (held m) },
}

// A plan for it that has the right shape, and the distance that like-coloured children are to keep.
#[derive(Clone, Copy)]
pub struct Subject<'m, 'p> {
    pub net: Net<'m>,
    pub plan: Plan<'p>,
    pub k: usize,
    ghost shaped: { PlanLists net.m.n plan },
    ghost distance: { k ≤ max_distance },
}
