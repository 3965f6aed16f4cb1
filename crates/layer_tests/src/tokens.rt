//! Corners of the tokens of a text.
use ss_lexer::{Kind, TokenFault, Tokens};
use std::test::Fail;

#[test]
fn corners(rt: HostRuntime) -> Result<(), Fail> {
    // the texts, how many tokens come before the last answer, and the place of that answer
    let texts: [(&[u8], usize, usize); 9] = [
        (b"D->R", 3, 4),
        (b" x-5 ", 1, 5),
        (b"a--b", 1, 1),
        (b"'a''b' \"\"", 2, 9),
        (b"-123456789012345678", 1, 19),
        (b"-1234567890123456789", 1, 19),
        (b"a:b", 1, 1),
        (b"x \xc3\xa9", 1, 2),
        (b"x 'a''", 1, 2),
    ];
    for (text, count, place) in texts {
        let mut tokens = Tokens::of(rt.alloc(), text).ok().ok_or("memory")?;
        for _ in 0..count {
            assert!(rt; tokens.next().is_ok());
        }
        for _ in 0..2 {
            let at = match tokens.next() {
                Ok(token) => {
                    assert!(rt; token.kind == Kind::Finish);
                    token.from
                }
                Err(TokenFault::BadByte { at } | TokenFault::OpenQuote { at }) => at,
            };
            assert_eq!(rt; at, place);
        }
    }
    Ok(())
}
