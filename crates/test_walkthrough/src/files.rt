// Files of two blocks, made of that of the held chart.
ghost use Rattle.std.specs.Prelude.{◌+◌, ◌*◌, ◌≤◌, length};

use runner::Runner;

pub type File = [u8; 1024];

// The file of the held chart.
// Kept: of two blocks, apart from that of 2,560 bytes in `test_cases`: two lines each.
pub fn file_of(runner: Runner) -> File {
    let mut file = [0; 1024];
    let _ = runner.write_back(&mut file);
    file
}

// The checks of both blocks made right.
fn sealed(mut file: File) -> File {
    let edition = file[4];
    for (number, block) in (0..).zip(file.chunks_exact_mut(512)) {
        block::seal(format::addend(edition, number), block);
    }
    file
}

// Bytes of box p, from its byte `from` on.
fn put(file: &mut File, p: usize, from: usize, bytes: &[u8])
    requires { 512 + 10 * p + from + length bytes.now ≤ 1024 }
{
    let start = 512 + 10 * p + from;
    file[start..start + bytes.len()].copy_from_slice(bytes);
}

// The held chart's file with 1,000 as box 3's constant, where its sum was.
pub fn with_constant(runner: Runner) -> File {
    let mut file = file_of(runner);
    put(&mut file, 3, 2, &[0, 0, 0]);
    put(&mut file, 3, 6, &1000u16.to_le_bytes());
    sealed(file)
}

// The file of edition 2 with two copies into 18 to which box 2 goes: of input 1 in box 3, and of 17
// in box 7, which is new.
pub fn with_copies(mut file: File) -> File {
    file[6] = 8;
    put(&mut file, 2, 6, &[7]);
    put(&mut file, 3, 1, &[18, 1, 1]);
    put(&mut file, 3, 6, &[0, 0]);
    put(&mut file, 7, 0, &[1, 18, 1, 17]);
    put(&mut file, 7, 5, &[4]);
    sealed(file)
}
