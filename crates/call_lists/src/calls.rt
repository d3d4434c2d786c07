// A call on an open hour, as a value.
use apportion::AreaMember;

#[derive(Clone, Copy)]
pub enum Call<'a> {
    Post {
        participant: u8,
        // a number, since a wrong one is answered too
        class: u8,
        bus: u16,
        tenths: u32,
    },
    PostTransaction {
        participant: u8,
        source: u16,
        sink: u16,
        tenths: u32,
    },
    PostArea {
        participant: u8,
        tenths: u32,
        members: &'a [AreaMember],
    },
    AmendPosition {
        record: usize,
        tenths: u32,
    },
    AmendTransaction {
        record: usize,
        tenths: u32,
    },
    Close,
}
