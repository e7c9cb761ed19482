use host_gpt::crc32;

#[test]
fn known_crcs(rt: HostRuntime) {
    assert_eq!(rt; crc32(b""), 0);
    assert_eq!(rt; crc32(b"a"), 0xe8b7be43);
    assert_eq!(rt; crc32(b"123456789"), 0xcbf43926);
    assert_eq!(rt; crc32(&[0, 0, 0, 0]), 0x2144df1c);
}
