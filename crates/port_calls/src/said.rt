//! What a node writes, and how many links it says were served.

ghost use Rattle.std.specs.Prelude.{◌≤◌};
ghost use Rattle.command_line.specs.Calls.{output_as};
ghost use Rattle.command_line.specs.Ends.{Says};
ghost use Rattle.port_calls.specs.NodeTexts.{SaysServed, served_text, unlisted_text};

use command_line::{Status, ended};
use source_node::Served;
use tk_io::{Put, Sink, Writer};

/// Ends as serving the links of a port did: how many were served is written, or nothing where the port failed.
pub(crate) fn end_served<K: Sink>(out: &mut K, served: Served) -> Status
    ensures counts { K.faults out.old ≤ K.faults out.new }
    ensures says { SaysServed (output_as K.held K.faults out.old) (output_as K.held K.faults out.new) served result }
{
    match served {
        Served::Ended { conns } => say_served(out, conns),
        Served::PortFault => Status::PortFault,
    }
}

/// Writes how many connections were served, and ends done, or with a write fault.
pub fn say_served<K: Sink>(out: &mut K, conns: u64) -> Status
    ensures counts { K.faults out.old ≤ K.faults out.new }
    ensures says { Says (output_as K.held K.faults out.old) (output_as K.held K.faults out.new)
        (served_text conns) Status.Done result }
{
    let mut writer = Writer::make(out);
    writer.put(b"served ");
    writer.put_number(conns);
    writer.put(b"\n");
    let written = writer.end();
    ended(written, Status::Done)
}

/// Writes that the catalog has no list of this name, and ends so, or with a write fault.
pub(crate) fn refuse_name<K: Sink>(out: &mut K, name: &str) -> Status
    ensures counts { K.faults out.old ≤ K.faults out.new }
    ensures says { Says (output_as K.held K.faults out.old) (output_as K.held K.faults out.new)
        (unlisted_text name.now) Status.Partial result }
{
    let mut writer = Writer::make(out);
    writer.put(b"refused node UnknownList ");
    writer.put(name.as_bytes());
    writer.put(b"\n");
    let written = writer.end();
    ended(written, Status::Partial)
}
