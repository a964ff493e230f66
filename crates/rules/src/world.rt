// The world of one device, as a caller lends it: the state, and four buffers.

#[derive(Drop)]
pub struct World<'a> {
    pub state: crate::State,
    pub cells: &'a mut [u8],
    pub identification: &'a mut [u8],
    pub latch: &'a mut [u8],
    pub counts: &'a mut [u16],
}
