//! A machine that is driven over lists that are told.

ghost use Rattle.std.specs.Prelude.{◌≡◌, length, OnOk, IfErr};
ghost use Rattle.ranked_list.specs.Table.{IsTable};
ghost use Rattle.monotone_fn.specs.Shape.{list_count};
ghost use Rattle.query_core.specs.Ready.{IsReady};
ghost use Rattle.query_core.specs.Machines.{method_of, state_of, MakesItsRun};
ghost use Rattle.query_core.specs.Driving.{CanDrive, Steps, IsDriven, StopsWith, Finishes, DrivesWith, RunsOver};

use super::told::ToldList;
use machine_base::{Answer, CoreFault};
use query_core::{DriveFault, Machine, Ready};
use ranked_list::Need;
use std::alloc::Global;

/// Runs a query over its lists, which are a table of `ready.count` objects and are told in the order of
/// the query, and has its answer. It is refused for its room alone.
///
/// *Cost*: as often as the run has accesses, the feeding of the machine; a list is indexed by object once, when a
/// random access needs it.
pub fn answer_over(
    alloc: Global,
    ready: &Ready,
    lists: &mut [ToldList],
) -> Result<Answer, DriveFault>
    requires ready { IsReady ready.now }
    requires table { IsTable ready.now.count lists.old }
    requires lists { length lists.old ≡ list_count ready.now.query.expr }
    ensures runs { RunsOver ready.now lists.old result }
    ensures same { lists.new ≡ lists.old }
{
    match Machine::make(alloc, ready) {
        Ok(machine) => drive(alloc, machine, lists),
        Err(_) => Err(DriveFault::Memory),
    }
}

/// Feeds a machine from the lists until it needs nothing more, and has its answer.
fn drive(alloc: Global, machine: Machine, lists: &mut [ToldList]) -> Result<Answer, DriveFault>
    requires { CanDrive lists.old (state_of machine) }
    ensures drives { DrivesWith (method_of machine) lists.old (state_of machine) result }
    ensures same { lists.new ≡ lists.old }
{
    let mut machine = machine;
    match feed_all(alloc, &mut machine, lists) {
        Ok(()) => answer_of(machine),
        Err(fault) => {
            machine.let_go();
            Err(fault)
        }
    }
}

/// Feeds a machine from the lists until it needs nothing more.
fn feed_all(alloc: Global, machine: &mut Machine, lists: &mut [ToldList]) -> Result<(), DriveFault>
    requires { CanDrive lists.old (state_of machine.old) }
    ensures same { lists.new ≡ lists.old }
    ensures ok { OnOk result (IsDriven lists.old machine.old machine.new) }
    ensures err { IfErr result (StopsWith (method_of machine.old) lists.old (state_of machine.old)) }
{
    loop {
        match machine.need() {
            Need::Row { list, depth } => feed_row(machine, lists, list, depth)?,
            Need::Grade { list, object } => feed_grade(alloc, machine, lists, list, object)?,
            Need::Done => return Ok(()),
        }
    }
}

/// The answer of a machine that needs nothing more.
fn answer_of(machine: Machine) -> Result<Answer, DriveFault>
    requires { (state_of machine).need ≡ Need.Done }
    ensures { Finishes machine result }
{
    match machine.answer() {
        Ok(answer) => Ok(answer),
        Err(_) => Err(DriveFault::Memory),
    }
}

/// Feeds the machine with the row that it needs.
fn feed_row(
    machine: &mut Machine,
    lists: &[ToldList],
    list: u8,
    depth: u32,
) -> Result<(), DriveFault>
    requires drives { CanDrive lists.now (state_of machine.old) }
    requires run { MakesItsRun machine.old }
    requires need { (state_of machine.old).need ≡ Need.Row list depth }
    ensures ok { OnOk result (Steps lists.now machine.old machine.new) }
    ensures err { IfErr result (StopsWith (method_of machine.old) lists.now (state_of machine.old)) }
{
    let Some(row) = lists[usize::from(list)].row(depth) else {
        unreachable!();
    };
    match machine.feed_row(row) {
        Ok(()) => Ok(()),
        Err(CoreFault::RoomFull { room }) => Err(DriveFault::RoomFull { room }),
        Err(CoreFault::Strangers { .. }) => unreachable!(),
    }
}

/// Feeds the machine with the grade that it needs.
fn feed_grade(
    alloc: Global,
    machine: &mut Machine,
    lists: &mut [ToldList],
    list: u8,
    object: u32,
) -> Result<(), DriveFault>
    requires drives { CanDrive lists.old (state_of machine.old) }
    requires run { MakesItsRun machine.old }
    requires need { (state_of machine.old).need ≡ Need.Grade list object }
    ensures same { lists.new ≡ lists.old }
    ensures ok { OnOk result (Steps lists.old machine.old machine.new) }
    ensures err { IfErr result (StopsWith (method_of machine.old) lists.old (state_of machine.old)) }
{
    let told = &mut lists[usize::from(list)];
    let Ok(found) = told.grade(alloc, object) else {
        return Err(DriveFault::Memory);
    };
    let Some(grade) = found else {
        unreachable!();
    };
    machine.feed_grade(grade);
    Ok(())
}
