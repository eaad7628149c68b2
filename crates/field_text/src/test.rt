// Tests of a word, by number (`tests_of`, specs/Rows.antt): where a field counts.
ghost use Rattle.std.specs.Prelude.{◌<◌, ◌≡◌, false, get_or};
ghost use Rattle.field_text.specs.Rows.{tests_of, holds_in};

#[tactic(auto, unfolding(crate::specs::Rows::tests_of))]
fn chosen(
    test: u32,
    code: u32,
    valid: bool,
    wnr: bool,
    literal: bool,
    ccknownpass: bool,
    cm: bool,
) -> bool
    requires { test < 12 }
    ensures { result ≡ get_or (tests_of code valid wnr literal ccknownpass cm) test false }
{
    match test {
        0 => true,
        1 => valid,
        2 => valid & !wnr,
        3 => !literal,
        4 => ccknownpass,
        5 => code == 0x10,
        6 => code == 0x11,
        7 => iss::mmu_fault(code),
        8 => (code == 0x31) | (code == 0x35),
        9 => !cm,
        10 => !((code == 0x11) | (code == 0x19)),
        _ => !((code == 0x11) | (code == 0x19)) & !cm,
    }
}

#[tactic(auto, unfolding(crate::specs::Rows::tests))]
pub(crate) fn holds(word: u64, test: u32) -> bool
    requires { test < 12 }
    ensures { result ≡ holds_in word test }
{
    chosen(
        test,
        bits::field32(word, 5, 0),
        bits::bit(word, 24),
        bits::bit(word, 6),
        bits::bit(bits::field(word, 3, 1), 2),
        bits::bit(word, 19),
        bits::bit(word, 8),
    )
}
