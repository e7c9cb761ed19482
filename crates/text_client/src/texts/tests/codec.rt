use host_record::{Response, Status};
use std::test::Fail;

const BYTES: [u8; 32] = [
    0xf2, 0xff, 0xff, 0xff, 3, 0, 0, 0, 3, 0, 0, 0, 3, 0, 0, 0, 0, 0, 0, 0, 0, 0, 0, 0, 0, 0, 0, 0,
    0, 0, 0, 0,
];

#[test]
fn codec(rt: HostRuntime) -> Result<(), Fail> {
    let response = Response {
        status: Status::OutOfRange.number(),
        reqid: 3,
        group: 3,
        count: 3,
    };
    assert_eq!(rt; response.to_bytes(), BYTES);
    assert_eq!(rt; Response::from_bytes(&BYTES), Some(response));
    let mut damaged = BYTES;
    damaged[10] = 1;
    assert_eq!(rt; Response::from_bytes(&damaged), None);
    assert_eq!(rt; Status::of(-1), None);
    Ok(())
}
