// What a message's record tells the conditions.
ghost use Rattle.std.specs.Prelude.{◌≡◌, not, ◌&&◌};
ghost use Rattle.faults.specs.Fault.{any_fault};
ghost use Rattle.control_words.specs.Outcome.{faults_shown, other_fault, moves_data_block, outcome_shown};

use crate::condition::Outcome;
use faults::fault::{Faults, faults_for};
use records::transfer::is_transfer;
use records::value::Record;
use words::command;
use words::settings::{is_broadcast, program_settings};

fn faults_shown(v: Record) -> Faults
    ensures { result ≡ faults_shown v }
{
    let s = program_settings();
    faults_for(is_broadcast(s, v.command), v)
}

#[tactic(auto, unfolding(crate::specs::Outcome::other_fault))]
fn other_fault(f: Faults) -> bool
    ensures { result ≡ other_fault f }
{
    f.sync || f.invalid || f.count || f.contents || f.gap || f.second
}

#[tactic(auto, unfolding(crate::specs::Outcome::moves_data_block))]
fn moves_data_block(v: Record) -> bool
    ensures { result ≡ moves_data_block v }
{
    let with_data = 16 <= command::count_field(v.command);
    is_transfer(v)
        || command::transmit(v.command) && (!command::mode_subaddress(v.command) || with_data)
}

// No fault at all: neither no status nor another.
#[tactic(auto, unfolding(faults::specs::Fault::any_fault, crate::specs::Outcome::other_fault))]
fn good_transfer(v: Record, f: Faults) -> bool
    ensures { result ≡ (not (any_fault f) && moves_data_block v) }
{
    !(f.no_status || other_fault(f)) && moves_data_block(v)
}

#[tactic(auto, unfolding(crate::specs::Outcome::outcome_shown))]
pub fn outcome_shown(v: Record) -> Outcome
    ensures { result ≡ outcome_shown v }
{
    let f = faults_shown(v);
    Outcome {
        no_status: f.no_status,
        other_fault: other_fault(f),
        good_transfer: good_transfer(v, f),
    }
}
