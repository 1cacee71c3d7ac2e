//! What the disks of a script's machines leave at their stops.
ghost use Rattle.std.specs.Prelude.{◌≡◌, IfOk};
ghost use Rattle.syn_simulate.specs.Disks.{IsStops, leaves_in, leaves_of, stops_at};

use crate::Line;
use std::alloc::{AllocError, Global};
use syn_disk::Leaves;
use syn_path::Side;
use syn_world::{Disks, Machine};

/// What the disk of each machine leaves at its stops, one after another: the modes of the machine's
/// stop lines, in their order.
pub(crate) fn stops_of(alloc: Global, lines: &[Line]) -> Result<Disks<Vec<Leaves>>, AllocError>
    ensures { IfOk result (λ stops. IsStops lines.now stops) }
{
    Ok(Disks {
        left: stops_at(alloc, lines, Machine::Side(Side::Left))?,
        right: stops_at(alloc, lines, Machine::Side(Side::Right))?,
        archive: stops_at(alloc, lines, Machine::Coordinator)?,
    })
}

/// The modes of the stop lines of this machine.
fn stops_at(alloc: Global, lines: &[Line], machine: Machine) -> Result<Vec<Leaves>, AllocError>
    ensures { IfOk result (λ stops. stops.items ≡ stops_at machine lines.now) }
{
    let mut stops = Vec::new(alloc);
    for line in lines {
        if let Some(leaves) = leaves_at(line, machine) {
            stops.push(leaves)?;
        }
    }
    Ok(stops)
}

/// What the line says that the disk of this machine leaves, if it stops it.
fn leaves_at(line: &Line, machine: Machine) -> Option<Leaves>
    ensures { leaves_in result ≡ leaves_of machine line.now }
{
    match line {
        Line::Stop(at, _, leaves) if *at == machine => Some(*leaves),
        _ => None,
    }
}
