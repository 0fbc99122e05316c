// Replies of the server to requests that stand one after another, 48 octets each.
#![tactic(auto)]

ghost use Rattle.std.specs.Prelude.{◌≡◌, ◌+◌, ◌*◌, ◌/◌, ◌<◌, min, ◌++◌, set, take, drop};
ghost use Rattle.timestamp.specs.Timestamp.{timestamp};
ghost use Rattle.packet.specs.Packet.{packet_length};
ghost use Rattle.server.specs.Server.{replied, replied_buffer};
ghost use Rattle.refusals.specs.Given.{result_number};
ghost use Rattle.reply_block.specs.Block.{block_count, number_at, reply_at, block_replies, block_numbers};

use refusals::result_number;
use server_packet::Settings;
use timestamp::Timestamp;

pub mod c_entry;

// Replies to one request, and gives the number.
fn reply_number(settings: Settings, request: &[u8], t2: u64, t3: u64, buffer: &mut [u8]) -> u8
    ensures number { result ≡ result_number (replied settings request.now (timestamp t2) (timestamp t3) buffer.old) }
    ensures buffer { buffer.new ≡ replied_buffer settings request.now (timestamp t2) (timestamp t3) buffer.old }
{
    result_number(server::reply(settings, request, t2.into(), t3.into(), buffer))
}

// How many requests are answered, by the four lengths.
fn count(requests: usize, times: usize, replies: usize, numbers: usize) -> usize
    ensures { result ≡ min (min (requests / packet_length) (times / 2)) (min (replies / packet_length) numbers) }
{
    let asked = (requests / packet::LENGTH).min(times / 2);
    asked.min((replies / packet::LENGTH).min(numbers))
}

// Replies to the request at place i, into the same place of the replies.
#[tactic(auto, using(crate::proofs::Block::put_reply, crate::proofs::Block::put_number))]
fn reply_at(
    settings: Settings,
    i: usize,
    requests: &[u8],
    times: &[u64],
    replies: &mut [u8],
    numbers: &mut [u8],
)
    requires { i < block_count requests.now times.now replies.old numbers.old }
    ensures replies { replies.new ≡ take (packet_length * i) replies.old ++ reply_at settings i requests.now times.now replies.old ++ drop (packet_length * i + packet_length) replies.old }
    ensures numbers { numbers.new ≡ set numbers.old i (number_at settings i requests.now times.now replies.old) }
{
    let at = packet::LENGTH * i;
    let end = at + packet::LENGTH;
    numbers[i] = reply_number(
        settings,
        &requests[at..end],
        times[2 * i],
        times[2 * i + 1],
        &mut replies[at..end],
    );
}

// Replies to requests of 48 octets that stand one after another. `times` has the T2 and the T3 of each, `replies` gets a reply of 48 octets and `numbers` a
// number for each, as `server::reply` gives them; the four stand apart, as C lends them. As many are answered as all four have room for; that count is returned, and
// everything past it stays.
#[tactic(auto, using(crate::proofs::Block::no_reply, crate::proofs::Block::no_number, crate::proofs::Block::next_replies, crate::proofs::Block::next_numbers))]
pub fn reply_block(
    settings: Settings,
    requests: &[u8],
    times: &[u64],
    replies: &mut [u8],
    numbers: &mut [u8],
) -> usize
    ensures count { result ≡ block_count requests.now times.now replies.old numbers.old }
    ensures replies { replies.new ≡ block_replies settings result requests.now times.now replies.old }
    ensures numbers { numbers.new ≡ block_numbers settings result requests.now times.now replies.old numbers.old }
{
    let count = count(requests.len(), times.len(), replies.len(), numbers.len());
    // By index: the contracts of `chunks_exact_mut` and `zip` tell the length of the replies, and not their octets.
    for i in 0..count {
        reply_at(settings, i, requests, times, replies, numbers);
    }
    count
}
