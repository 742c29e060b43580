// A list of calls in the making: the files that it lends, the numbers of its calls, and what is
// lent for what they tell.
use arrayvec::ArrayVec;

// How much is lent for what the calls tell: room for so many numbers, and a buffer of so many
// bytes, each `filled`.
// Kept: `fits` is a flag, since a list with more than there is room for is made as far as it goes,
// and that is said only then.
// Kept: it derives Drop alone, since no list is copied or compared.
#[derive(Drop)]
pub struct List {
    pub files: ArrayVec<u8, 8192>,
    pub words: ArrayVec<u32, 1536>,
    pub room: usize,
    pub length: usize,
    pub filled: u8,
    pub fits: bool,
}

impl List {
    // A list without calls, and a buffer of 1,100 bytes, each 7.
    pub fn new() -> List {
        List {
            files: ArrayVec::new(),
            words: ArrayVec::new(),
            room: 0,
            length: 1100,
            filled: 7,
            fits: true,
        }
    }

    // A file behind those that are there.
    // Kept: one by one, here and in `add`: `try_extend_from_slice` puts none where not all fit.
    pub fn keep(&mut self, file: &[u8]) {
        self.fits &= file.iter().all(|byte| self.files.try_push(*byte).is_ok());
    }

    // A call more, and room for what it tells.
    pub fn add(&mut self, call: [u32; 24]) {
        self.fits &= call
            .iter()
            .all(|number| self.words.try_push(*number).is_ok());
        self.room = self.room.wrapping_add(4);
    }

    // The last numbers of the calls are not lent.
    pub fn less(&mut self, numbers: usize) {
        self.words
            .truncate(self.words.len().saturating_sub(numbers));
    }
}
