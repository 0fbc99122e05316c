// Kiss codes: the reference identifier of a reply of stratum 0 (RFC 4330, section 8).
#![tactic(auto)]

ghost use Rattle.std.specs.Prelude.{◌≡◌, ◌==◌, ◌<◌, IfSome, position};
ghost use Rattle.kiss.specs.Kiss.{code_of, names, codes, row_of};

// The four octets of a name as a reference identifier.
pub fn code(name: &[u8; 4]) -> u32
    ensures { result ≡ code_of name.now }
{
    u32::from_be_bytes(*name)
}

// The codes of the rules' rows 1 to 14.
fn codes() -> [u32; 14]
    ensures { result ≡ codes names }
{
    [
        code(b"ACST"),
        code(b"AUTH"),
        code(b"AUTO"),
        code(b"BCST"),
        code(b"CRYP"),
        code(b"DENY"),
        code(b"DROP"),
        code(b"RSTR"),
        code(b"INIT"),
        code(b"MCST"),
        code(b"NKEY"),
        code(b"RATE"),
        code(b"RMOT"),
        code(b"STEP"),
    ]
}

fn index_in(codes: [u32; 14], c: u32) -> Option<usize>
    ensures index { result ≡ position (λ code. c == code) codes }
    ensures below { IfSome result (λ i. i < 14) }
{
    codes.iter().position(|code| c == *code)
}

// The row of a code in the rules' list, from 1 on; 0 for any other code, as the rules number it.
#[tactic(auto, using(crate::proofs::Rows::row_position), unfolding(crate::specs::Kiss::row_of))]
pub fn row(c: u32) -> u8
    ensures { result ≡ row_of c }
{
    match index_in(codes(), c) {
        Some(i) => i as u8 + 1,
        None => 0,
    }
}
