//! Where words start and end.
ghost use Rattle.std.specs.Prelude.{◌≡◌, false, ◌<◌, length};
ghost use Rattle.words.specs.Spans.{bracket, comment_after, comment_end, comment_start, delimiter, starts, white, word_end};
ghost use Rattle.words.specs.code.Spans.{first_start};

// White space: 9, 10, 13, 32.
fn is_white(byte: u8) -> bool
    ensures { result ≡ white byte }
{
    (byte == 9) | (byte == 10) | (byte == 13) | (byte == 32)
}

// What a comment begins with.
fn starts_comment(byte: u8) -> bool
    ensures { result ≡ comment_start byte }
{
    byte == b';'
}

// What ends a comment: 10, 13.
fn ends_comment(byte: u8) -> bool
    ensures { result ≡ comment_end byte }
{
    matches!(byte, 10 | 13)
}

// One of the two brackets.
fn is_bracket(byte: u8) -> bool
    ensures { result ≡ bracket byte }
{
    matches!(byte, b'(' | b')')
}

// What ends a run of bytes: white space, a bracket, `;`.
fn ends_run(byte: u8) -> bool
    ensures { result ≡ delimiter byte }
{
    is_white(byte) | is_bracket(byte) | starts_comment(byte)
}

// Whether the byte after `byte` stands in a comment.
fn comment_after(comment: bool, byte: u8) -> bool
    ensures { result ≡ comment_after comment byte }
{
    (comment & !ends_comment(byte)) | (!comment & starts_comment(byte))
}

// Whether a word starts at `byte`, before which stands no byte of a run.
fn begins(comment: bool, byte: u8) -> bool
    ensures { result ≡ starts comment false byte }
{
    (!comment & is_bracket(byte)) | !(comment | ends_run(byte))
}

// The offset of the first word from `at` on, where no comment and no run goes on; past the last byte if there is none.
pub fn first_start(text: &[u8], at: usize) -> usize
    ensures { result ≡ first_start text.now at }
{
    let mut comment = false;
    for i in at..text.len() {
        let byte = text[i];
        if begins(comment, byte) {
            return i;
        }
        comment = comment_after(comment, byte);
    }
    at.max(text.len())
}

// The offset past the word that starts at `at`.
pub fn word_end(text: &[u8], at: usize) -> usize
    requires { at < length text.now }
    ensures { result ≡ word_end text.now at }
{
    if is_bracket(text[at]) {
        return at + 1;
    }
    for i in at + 1..text.len() {
        if ends_run(text[i]) {
            return i;
        }
    }
    text.len()
}
