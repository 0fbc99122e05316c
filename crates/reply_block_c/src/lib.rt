// For C (docs/C.md): replies to requests that stand one after another. Each export calls the function of `reply_block` of the same name, and promises the same.
#![tactic(auto)]

ghost use Rattle.std.specs.Prelude.{◌≡◌};
ghost use Rattle.firmware.specs.Server.{settings};
ghost use Rattle.reply_block.specs.Block.{block_count, block_replies, block_numbers};

// `reply_block` with the settings of `pongulvesz_reply`.
#[unsafe(no_mangle)]
pub extern "C" fn pongulvesz_reply_block(
    synchronised: u32,
    leap: u32,
    precision: i32,
    identifier: u32,
    reference: u64,
    requests: &[u8],
    times: &[u64],
    replies: &mut [u8],
    numbers: &mut [u8],
) -> usize
    ensures count { result ≡ block_count requests.now times.now replies.old numbers.old }
    ensures replies { replies.new ≡ block_replies (settings synchronised leap precision identifier reference) result requests.now times.now replies.old }
    ensures numbers { numbers.new ≡ block_numbers (settings synchronised leap precision identifier reference) result requests.now times.now replies.old numbers.old }
{
    reply_block::c_entry::pongulvesz_reply_block(
        synchronised,
        leap,
        precision,
        identifier,
        reference,
        requests,
        times,
        replies,
        numbers,
    )
}
