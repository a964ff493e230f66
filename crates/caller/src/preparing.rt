// Preparing, what is lent, and what is stored, on good and bad input.

#![tactic(auto, unfolding(
// What is lent.
rules::specs::Call::memory_refusal, rules::specs::Call::lent_refusal, rules::specs::Call::world_refusal, rules::specs::Sound::is_sound, rules::specs::Sound::clauses,
// Preparing and loading.
rules::specs::Call::prepare_outcome, rules::specs::Call::load_outcome,))]

use rules::{Stored, number_of};

// Preparing an M95040 gives 0, and a device that is not there 1.
pub fn prepares() {
    let mut cells = [0u8; 512];
    let mut identification = [0u8; 16];
    let mut latch = [0u8; 32];
    let mut counts = [0u16; 32];
    let good = m95::prepare(1, &mut cells, &mut identification, &mut latch, &mut counts);
    check::expect(number_of(good) == 0);
    let bad = m95::prepare(9, &mut cells, &mut identification, &mut latch, &mut counts);
    check::expect(number_of(bad) == 1);
}

// An M95010 has no identification page: it is prepared with an empty slice.
pub fn prepares_smaller() {
    let mut cells = [0u8; 128];
    let mut latch = [0u8; 32];
    let mut counts = [0u16; 8];
    let good = m95::prepare(5, &mut cells, &mut [], &mut latch, &mut counts);
    check::expect(number_of(good) == 0);
}

// A page that is lent for it all the same is refused with 3.
pub fn refuses_a_page() {
    let mut cells = [0u8; 128];
    let mut identification = [0u8; 16];
    let mut latch = [0u8; 32];
    let mut counts = [0u16; 8];
    let bad = m95::prepare(5, &mut cells, &mut identification, &mut latch, &mut counts);
    check::expect(number_of(bad) == 3);
}

// So are counts for too few pages, with 14.
pub fn refuses_counts() {
    let mut cells = [0u8; 128];
    let mut latch = [0u8; 32];
    let mut counts = [0u16; 7];
    let bad = m95::prepare(5, &mut cells, &mut [], &mut latch, &mut counts);
    check::expect(number_of(bad) == 14);
}

// The buffers of a prepared device are refused by nothing, and those of no device with 1.
pub fn judges() {
    let cells = [0xFFu8; 512];
    let identification = [0xFFu8; 16];
    let latch = [0u8; 32];
    let counts = [0u16; 32];
    let state = m95::prepared_state();
    let good = m95::world_refused(1, state, &cells, &identification, &latch, &counts);
    check::expect(number_of(good) == 0);
    let none = m95::world_refused(8, state, &cells, &identification, &latch, &counts);
    check::expect(number_of(none) == 1);
}

// What an M95128-D has stored is loaded and told again; an M95040 has no bit 7, so that it is refused there with 5.
pub fn loads() {
    let stored = Stored {
        status: 0x84,
        lock: 1,
    };
    let good = m95::load(2, stored);
    check::expect(number_of(good) == 0);
    let told = m95::stored(good.unwrap_or(m95::prepared_state()));
    check::expect(told.status == 0x84);
    check::expect(told.lock == 1);
    let refused = m95::load(1, stored);
    check::expect(number_of(refused) == 5);
}

// The status of a prepared device is 0.
pub fn tells_status() {
    let status = m95::status_byte(m95::prepared_state());
    check::expect(status == 0);
}
