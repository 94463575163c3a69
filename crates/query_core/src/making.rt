//! Machines of the algorithms, each made for a ready query that names its algorithm, of a copy of the query's expression.

ghost use Rattle.std.specs.Prelude.{◌≡◌, IfOk};
ghost use Rattle.query_text.specs.declared.algorithm.Algorithm.TheVariants as algorithms;
ghost use Rattle.query_core.specs.Ready.{IsReady};
ghost use Rattle.query_core.specs.Machines.{algorithm_halting, MakesItsRun, IsMachineFor};

use super::Memory;
use super::machine::Machine;
use super::ready::Ready;
use ca_core::Ca;
use fa_core::Fa;
use monotone_fn::Expr;
use nra_core::Nra;
use restricted_core::Taz;
use std::alloc::Global;
use ta_core::{Halting, Ta};

/// Of the threshold algorithm with a rule of halting.
pub(crate) fn threshold(
    alloc: Global,
    ready: &Ready,
    expr: Expr,
    halting: Halting,
) -> Result<Machine, Memory>
    requires ready { IsReady ready.now }
    requires copied { expr ≡ ready.now.query.expr }
    requires algorithm { ready.now.query.algorithm ≡ algorithm_halting halting }
    ensures begun { IfOk result (IsMachineFor ready.now) }
    ensures run { IfOk result MakesItsRun }
{
    let (k, count, room) = (ready.query.k, ready.count, ready.room());
    let costs = ready.query.costs_in_force();
    let machine = Ta::make(alloc, expr, k, count, room, costs, halting)?;
    Ok(Machine::Ta(machine))
}

/// Of the algorithm without random access.
pub(crate) fn no_random(alloc: Global, ready: &Ready, expr: Expr) -> Result<Machine, Memory>
    requires ready { IsReady ready.now }
    requires copied { expr ≡ ready.now.query.expr }
    requires algorithm { ready.now.query.algorithm ≡ algorithms.Nra }
    ensures begun { IfOk result (IsMachineFor ready.now) }
    ensures run { IfOk result MakesItsRun }
{
    let (k, count, room) = (ready.query.k, ready.count, ready.room());
    let costs = ready.query.costs_in_force();
    let machine = Nra::make(alloc, expr, k, count, room, costs)?;
    Ok(Machine::Nra(machine))
}

/// Of the combined algorithm.
pub(crate) fn combined(alloc: Global, ready: &Ready, expr: Expr) -> Result<Machine, Memory>
    requires ready { IsReady ready.now }
    requires copied { expr ≡ ready.now.query.expr }
    requires algorithm { ready.now.query.algorithm ≡ algorithms.Ca }
    ensures begun { IfOk result (IsMachineFor ready.now) }
    ensures run { IfOk result MakesItsRun }
{
    let (k, count, room) = (ready.query.k, ready.count, ready.room());
    let costs = ready.query.costs_in_force();
    let machine = Ca::make(alloc, expr, k, count, room, costs)?;
    Ok(Machine::Ca(machine))
}

/// Of Fagin's algorithm.
pub(crate) fn fagins(alloc: Global, ready: &Ready, expr: Expr) -> Result<Machine, Memory>
    requires ready { IsReady ready.now }
    requires copied { expr ≡ ready.now.query.expr }
    requires algorithm { ready.now.query.algorithm ≡ algorithms.Fa }
    ensures begun { IfOk result (IsMachineFor ready.now) }
    ensures run { IfOk result MakesItsRun }
{
    let (k, count, room) = (ready.query.k, ready.count, ready.room());
    let costs = ready.query.costs_in_force();
    let machine = Fa::make(alloc, expr, k, count, room, costs)?;
    Ok(Machine::Fa(machine))
}

/// Of the threshold algorithm over the lists that can be read in order.
pub(crate) fn restricted(alloc: Global, ready: &Ready, expr: Expr) -> Result<Machine, Memory>
    requires ready { IsReady ready.now }
    requires copied { expr ≡ ready.now.query.expr }
    requires algorithm { ready.now.query.algorithm ≡ algorithms.Taz }
    ensures begun { IfOk result (IsMachineFor ready.now) }
    ensures run { IfOk result MakesItsRun }
{
    let (k, count, room) = (ready.query.k, ready.count, ready.room());
    let costs = ready.query.costs_in_force();
    let machine = Taz::make(alloc, expr, k, count, room, costs, ready.sorted.as_slice())?;
    Ok(Machine::Taz(machine))
}
