// Answering a whole script: its pieces are given to a session one after the other.
#![tactic(auto)]

ghost use Rattle.std.specs.Prelude.{◌≡◌, ℕ, ◌≤◌, Bool, true, false, List, ◌++◌, length, IfOk, OnOk};
ghost use Rattle.rules.specs.Table.{answer, step};
ghost use Rattle.session.specs.Views.{view};
ghost use Rattle.script.specs.Transcripts.{on, transcript};

use page::error;
use pieces::cut;
use rules::Fault;
use session::store::Session;
use std::alloc::{AllocError, Global};

// Gives one piece to the session, and puts its response behind the others.
fn answer_piece(
    session: &mut Session,
    text: &[u8],
    page: &mut [u8; 8192],
    out: &mut Vec<u8>,
) -> Result<(), AllocError>
    ensures state { view session.new ≡ step (view session.old) (on text.now) }
    ensures out { OnOk result (out.new.items ≡ out.old.items ++ (answer (view session.old) (on text.now)).bytes) }
{
    let reply = session.command(text, page);
    out.extend_from_slice(&page[..reply.count])
}

// The responses to a script; only want of memory keeps them back.
pub fn answer_script(heap: Global, script: &[u8]) -> Result<Vec<u8>, AllocError>
    ensures { IfOk result (λ out. out.items ≡ transcript script.now) }
{
    let mut out = Vec::new(heap);
    let mut page = [0; 8192];
    if script.len() > 65536 {
        let fault = Fault::Text;
        let count = error(&mut page, fault.number(), fault.place());
        out.extend_from_slice(&page[..count])?;
        return Ok(out);
    }
    let mut session = Session::new();
    for piece in cut(script) {
        answer_piece(&mut session, piece, &mut page, &mut out)?;
        if session.has_ended() {
            return Ok(out);
        }
    }
    Ok(out)
}
