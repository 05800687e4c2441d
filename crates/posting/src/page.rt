// A block of records, posted one after the other onto a page of lines.
ghost use Rattle.std.specs.Prelude.{◌≡◌, ℕ, ◌+◌, ◌*◌, ◌<◌, ◌≤◌, ◌++◌, length};
ghost use Rattle.refusals.specs.Limits.{Answers};
ghost use Rattle.posting.specs.Feeds.{count as count_of, page_limits};
ghost use Rattle.posting.specs.Pages.{Put, Blocked};

use crate::record::post;
use banks::Bank;
use basin::Basin;
use refusals::Refusal;
use storages::{Storage, Tapped};

const RECORD: usize = 16;

const ROOM: usize = 192;

// Posts a record; its line stands from `at` on, and its length is the answer.
fn post_at<B: Bank, C: Tapped>(
    basin: &mut Basin<B, C>,
    bytes: &[u8],
    page: &mut [u8],
    at: usize,
) -> usize
    requires { at + 192 ≤ length page.old }
    ensures { Put B.Bank C.Storage C.Tapped.own basin.old bytes.now page.old at result page.new basin.new }
{
    post(basin, bytes, &mut page[at..]).unwrap()
}

// Posts every record of a block, and answers how many bytes of lines stand at the front of the page. The last record may be short.
// A page with under 192 bytes for each record is refused before anything else is done.
pub fn post_block<B: Bank, C: Tapped>(
    basin: &mut Basin<B, C>,
    block: &[u8],
    page: &mut [u8],
) -> Result<usize, Refusal>
    ensures { Answers (page_limits block.now page.old) result (λ n. Blocked B.Bank C.Storage C.Tapped.own basin.old block.now page.old n page.new basin.new) ((basin.new ≡ basin.old) × (page.new ≡ page.old)) }
{
    if page.len() / ROOM < block.len().div_ceil(RECORD) {
        return Err(Refusal::ShortBuffer);
    }
    let mut at = 0;
    for record in block.chunks(RECORD) {
        at += post_at(basin, record, page, at);
    }
    Ok(at)
}
