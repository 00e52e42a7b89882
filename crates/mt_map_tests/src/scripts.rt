//! Requests as they are written. What scripts answer, and readers and writers that fail under them, is shown by the
//! cases of `mtdrive`.

use mt_script::asking::request_text;
use mt_script::reading::read_request;
use std::test::Fail;

// Requests of each kind, as they are written.
const REQUESTS: [&[u8]; 11] = [
    b"get - all",
    b"get 61 2,0",
    b"put 6a -",
    b"put 61 0=-,255=00ff",
    b"putif 61 18446744073709551615 0=00",
    b"remove 61",
    b"range - 65535 1",
    b"tidy 61",
    b"build range - none any",
    b"build range 61 62 equals 1 6a",
    b"build prefix 61 atleast 0 18446744073709551615",
];

#[test]
fn requests(rt: HostRuntime) -> Result<(), Fail> {
    for text in &REQUESTS {
        let request = read_request(rt.alloc(), text)?;
        let written = request_text(rt.alloc(), &request)?;
        assert_eq!(rt; written.as_bytes(), *text);
    }
    Ok(())
}
