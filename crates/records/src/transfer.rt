// The RT-to-RT transfer in a record value: its flags, and the rules that they keep. Document 02, request 2.
ghost use Rattle.std.specs.Prelude.{◌≡◌};
ghost use Rattle.records.specs.Transfer.{is_transfer, has_no_status, has_wrong_gap, has_bad_second, transfer_fails, breaks_transfer};

use crate::value::Record;
use words::command;

// Each flag has a test of its own, here and in `value`: one that takes the flag as a const parameter would be called
// with a number in place of each name, and be no shorter.
pub fn is_transfer(v: Record) -> bool
    ensures { result ≡ is_transfer v }
{
    v.flags / 8 % 2 == 1
}

pub fn no_status(v: Record) -> bool
    ensures { result ≡ has_no_status v }
{
    v.flags / 16 % 2 == 1
}

pub fn wrong_gap(v: Record) -> bool
    ensures { result ≡ has_wrong_gap v }
{
    v.flags / 32 % 2 == 1
}

pub fn bad_second(v: Record) -> bool
    ensures { result ≡ has_bad_second v }
{
    v.flags / 64 % 2 == 1
}

#[tactic(auto, unfolding(crate::specs::Transfer::transfer_fails))]
pub fn transfer_fails(v: Record) -> bool
    ensures { result ≡ transfer_fails v }
{
    no_status(v) || wrong_gap(v) || bad_second(v)
}

// Most records are no transfer and have none of its flags.
#[tactic(auto, unfolding(crate::specs::Transfer::breaks_transfer), using(crate::proofs::Before::unmarked))]
pub(crate) fn breaks_transfer(v: Record) -> bool
    ensures { result ≡ breaks_transfer v }
{
    if v.flags < 8 {
        return v.transmit_command != 0;
    }
    let transfer = is_transfer(v);
    let fails = transfer_fails(v);
    let set_without = !transfer && (fails || v.transmit_command != 0);
    let words_with = fails && v.count != 0;
    transfer && command::transmit(v.command) || set_without || words_with
}
