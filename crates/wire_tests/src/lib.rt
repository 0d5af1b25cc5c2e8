//! What the packet layer does on examples.
#![tactic(auto)]

#[cfg(test)]
mod tests {
    use std::test::Fail;
    use wire::body::{Direction, Fields};
    use wire::crc::crc8;
    use wire::frame::{pack, unpack};
    use wire::receiver::Receiver;

    const PING: [u8; 15] = [
        0x73, 0x55, 0x20, 0, 5, 0, 0xFF, 0xFF, 1, 0, 0, 0, 0, 0xCA, 0x55,
    ];

    // What unpack answers: the body's length, or the refusal's number.
    fn unpacked(input: &[u8], buffer: &mut [u8]) -> Result<usize, u8> {
        unpack(input, buffer).map_err(u8::from)
    }

    // What a new receiver says of the bytes: nothing, a good frame, or the fault's number.
    fn heard(bytes: &[u8]) -> Option<Result<(), u8>> {
        let mut receiver = Receiver::new();
        receiver.run(bytes).1.map(|event| event.map_err(u8::from))
    }

    #[test]
    fn check_value(rt: HostRuntime) {
        assert_eq!(rt; crc8(b""), 0);
        assert_eq!(rt; crc8(&[1]), 0xA9);
        assert_eq!(rt; crc8(&[2]), 0xFB);
        assert_eq!(rt; crc8(&PING[2..13]), 0xCA);
    }

    #[test]
    fn every_length_comes_back(rt: HostRuntime) -> Result<(), Fail> {
        let data = [0x73; 31];
        for length in 0..32usize {
            let fields = Fields {
                direction: Direction::Answer,
                destination: 0x5573,
                source: 0x7355,
                command: 0x55,
                four: [0x73, 0x55, 0x11, 0x22],
                payload: &data[..length],
            };
            let mut frame = [0; 89];
            let mut body = [0; 43];
            let Ok(size) = pack(&fields, &mut frame) else {
                return Err(Fail::new("not packed"));
            };
            assert!(rt; size <= 89);
            assert_eq!(rt; unpacked(&frame[..size], &mut body), Ok(12 + length));
        }
        Ok(())
    }

    #[test]
    fn short_buffers_and_inputs(rt: HostRuntime) {
        let mut short = [7; 42];
        let mut body = [7; 43];
        assert_eq!(rt; unpacked(&PING, &mut short), Err(3));
        assert_eq!(rt; unpacked(&PING[1..15], &mut body), Err(4));
        assert!(rt; body == [7; 43]);
    }

    #[test]
    fn faults_of_unpack(rt: HostRuntime) {
        let mut body = [7; 43];
        assert_eq!(rt; unpacked(&[0x73, 0x55, 0, 0], &mut body), Err(5));
        assert_eq!(rt; unpacked(&[0x73, 0x55, 0x73, 0x73], &mut body), Err(31));
        assert_eq!(rt; unpacked(&[0x73, 0x55, 0, 0x55, 0], &mut body), Err(33));
        assert!(rt; body == [7; 43]);
    }

    #[test]
    fn noise_before_a_frame(rt: HostRuntime) {
        assert_eq!(rt; heard(&[0, 0x73, 0, 0x55, 0x73, 0x73]), None);
        assert_eq!(rt; heard(&PING), Some(Ok(())));
        assert_eq!(rt; heard(&[0x73, 0x55, 1, 0x73, 0x11]), None);
        assert_eq!(rt; heard(&[0x73, 0x55, 1, 0x73, 0x55]), Some(Err(31)));
        assert_eq!(rt; heard(&[0x73, 0x55, 0x55]), Some(Err(33)));
    }
}
