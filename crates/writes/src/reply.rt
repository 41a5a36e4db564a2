// The reply: the status word and then the data words, at the front of the lent buffer.
ghost use Rattle.std.specs.Prelude.{◌≡◌};
ghost use Rattle.memory.specs.Writes.{apply_writes};
ghost use Rattle.writes.specs.Reply.{sent_behind, reply_writes};

use crate::send::send_words;
use memory::ram::put;
use plan::deed::Deed;

// The words behind the status: the window's, or the third word alone.
#[tactic(auto, unfolding(crate::specs::Reply::sent_behind, memory::specs::Writes::apply_writes))]
fn send_behind(ram: &[u16], reply: &mut [u16], d: Deed)
    ensures { reply.new ≡ apply_writes (sent_behind ram.now d.window d.sent d.sends_third d.third) reply.old }
{
    if d.sent == 1 && d.sends_third {
        put(reply, 1, d.third);
    } else {
        send_words(ram, reply, d.window, d.sent);
    }
}

// Only where words are sent are they copied: a receive sends its status alone.
#[tactic(auto, unfolding(crate::specs::Reply::reply_writes, crate::specs::Reply::sent_behind, memory::specs::Writes::apply_writes, memory::specs::Rows::row))]
pub fn send(ram: &[u16], reply: &mut [u16], d: Deed)
    ensures { reply.new ≡ apply_writes (reply_writes ram.now d) reply.old }
{
    if d.answered {
        put(reply, 0, d.status);
        if d.sent != 0 {
            send_behind(ram, reply, d);
        }
    }
}
