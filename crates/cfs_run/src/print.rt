//! From a script to the text of its run.
ghost use Rattle.std.specs.Prelude.{◌≡◌, ◌≢◌, Err, OnOk, IfErr};
ghost use Rattle.cfs_ids.specs.declared.ids.PlaceNo.{PlaceNo};
ghost use Rattle.cfs_io.specs.Causes.{Rose};
ghost use Rattle.cfs_script.specs.Outcomes.{IsInForm};
ghost use Rattle.cfs_run.specs.Outcomes.{Prints, PrintsFront};

use crate::middle::{RunFault, printed};
use cfs_ids::PlaceNo;
use cfs_io::{Failed, Sink};
use cfs_print::{NamedFiles, write_run};
use cfs_setup::Script;
use std::alloc::Global;

/// Why a run is not printed, or not all of it.
#[derive(Clone, Copy, Debug, PartialEq, Eq)]
pub enum PrintFault {
    /// The log of this place has no room for the next step. Nothing was written.
    LogFull(PlaceNo),
    /// No memory was left. Nothing was written.
    NoMemory,
    /// The sink failed, after it had taken a front of the text.
    Write,
}

/// Makes the turns of the script, and writes what came of them.
pub fn print<K: Sink>(alloc: Global, script: &Script, sink: &mut K) -> Result<(), PrintFault>
    requires form { IsInForm script.now }
    ensures ok { OnOk result (Prints script.now (K.taken sink.old) (K.taken sink.new)) }
    ensures write_fault { result ≡ Err PrintFault.Write → Rose (K.faults sink.old) (K.faults sink.new) }
    ensures no_write_fault { result ≢ Err PrintFault.Write → K.faults sink.new ≡ K.faults sink.old }
    ensures cut_off { result ≡ Err PrintFault.Write → PrintsFront script.now (K.taken sink.old) (K.taken sink.new) }
    ensures untouched { IfErr result (λ fault. fault ≢ PrintFault.Write → sink.new ≡ sink.old) }
    ensures not_full { (place : PlaceNo) → result ≢ Err (PrintFault.LogFull place) }
{
    let printed = match printed(alloc, script) {
        Ok(printed) => printed,
        Err(RunFault::LogFull(place)) => return Err(PrintFault::LogFull(place)),
        Err(RunFault::NoMemory) => return Err(PrintFault::NoMemory),
    };
    let Ok(named) = NamedFiles::of(alloc, &printed.tree) else {
        return Err(PrintFault::NoMemory);
    };
    match write_run(&printed, &named, sink) {
        Ok(()) => Ok(()),
        Err(Failed) => Err(PrintFault::Write),
    }
}
