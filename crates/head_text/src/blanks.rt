ghost use Rattle.std.specs.Prelude.{◌≡◌};
ghost use Rattle.head_text.specs.ETags.{is_blank, trimmed, without_back, without_front};

/// The text without the spaces and tabs round it, which RFC 9110 calls optional white space (section 5.6.3).
#[tactic(auto, unfolding(crate::specs::ETags::trimmed))]
pub fn trimmed(text: &[u8]) -> &[u8]
    ensures { result.now ≡ trimmed text.now }
{
    without_back(without_front(text))
}

fn without_front(text: &[u8]) -> &[u8]
    ensures { result.now ≡ without_front text.now }
{
    let mut at = 0;
    while at < text.len() && is_blank(text[at]) {
        at += 1;
    }
    &text[at..]
}

fn without_back(text: &[u8]) -> &[u8]
    ensures { result.now ≡ without_back text.now }
{
    let mut end = text.len();
    while 0 < end && is_blank(text[end - 1]) {
        end -= 1;
    }
    &text[..end]
}

fn is_blank(byte: u8) -> bool
    ensures { result ≡ is_blank byte }
{
    byte == b' ' || byte == b'\t'
}
