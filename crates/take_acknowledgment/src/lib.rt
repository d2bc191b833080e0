// Taking an acknowledgment: the message or cancel that was sent first of the equal ones leaves its outstanding place.
#![tactic(auto)]

ghost use Rattle.gateway.specs.Taking.{take_acknowledgment};
ghost use Rattle.gateway.specs.Inside.Premises.{Known, LeavesMemory};

use memory::Header;
use model::Message;
use places::changes::remove_sent;
use places::search::find_sent;
use refusal::Refusal;

pub fn take_acknowledgment(
    memory: &mut [u8],
    header: Header,
    cancel: bool,
    message: Message,
) -> Result<usize, Refusal>
    requires { Known memory.old header }
    ensures { LeavesMemory result memory (take_acknowledgment cancel message) }
{
    let q = header.settings.q as usize;
    match find_sent(memory, q, header.outstanding as usize, cancel, message) {
        Some(k) => {
            remove_sent(memory, header, k);
            Ok(0)
        }
        None => Err(Refusal::NotOutstanding),
    }
}
