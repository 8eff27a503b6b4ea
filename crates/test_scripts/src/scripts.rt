//! Scripts for tests, with their replies.

/// Two sessions, and a load that is explained once its store was reported.
pub(crate) const MESSAGE: &str = "a open t 2 100 x:w=0\n\
    a claim t 0\n\
    b claim t 1\n\
    b do t 1 lw x 1\n\
    a ask t\n\
    a do t 0 sw x 1\n\
    a ask t\n";

/// The replies to `MESSAGE`.
pub(crate) const REPLIES: &str =
    "a ok\na ok\nb ok\nb ok\na inconsistent\na ok\na consistent 2 0 1\n";

/// Lines that each have a reply, of every kind, with bad lines among them and after the last session entered.
pub(crate) const ALL_KINDS: &str = "a open t 1 2 x:w=0\n\
    A list\n\
    a fly t\n\
    a claim t 0\n\
    a claim t 0\n\
    a do t 0 sw x 1\n\
    a mark t\n\
    a ask t\n\
    a do t 0 lw x 2\n\
    a ask t\n\
    ! 0\n\
    a why t\n\
    a do t 0 sw x 3\n\
    a back t 1\n\
    a show t 0\n\
    a list\n\
    a open u 1 1 y:w=0\n\
    a claim u 0\n\
    a do u 0 sw y 1\n\
    a do u 0 lw y 2\n\
    a ask u\n\
    a close t\n";

/// The replies to `ALL_KINDS`.
pub(crate) const ALL_REPLIES: &str = "a ok\n\
    ? refused 1 bad-line\n\
    a refused 1 bad-line\n\
    a ok\n\
    a refused 7 process-taken\n\
    a ok\n\
    a ok 0\n\
    a consistent 1 0\n\
    a ok\n\
    a inconsistent\n\
    ? refused 1 bad-line\n\
    a because 2 0/0 1/1\n\
    a ok\n\
    a refused 14 no-such-mark\n\
    a ops 3 W x 1 R x 2 W x 3\n\
    a traces 1 t\n\
    a ok\n\
    a ok\n\
    a ok\n\
    a ok\n\
    a undecided\n\
    a ok\n";

/// The first lines of a text, as many as the script has line feeds.
pub(crate) fn replies_to<'a>(script: &[u8], replies: &'a [u8]) -> &'a [u8] {
    let mut left = script.iter().filter(|byte| **byte == b'\n').count();
    for (at, byte) in replies.iter().enumerate() {
        if left == 0 {
            return &replies[..at];
        }
        if *byte == b'\n' {
            left -= 1;
        }
    }
    replies
}
