//! Scripts that are made of a seed.
ghost use Rattle.std.specs.Prelude.{◌≡◌, ◌≤◌, ◌+◌, ◌*◌, ◌++◌, length, vec_len, vec_capacity, OnOk, OnErr};
ghost use Rattle.ck_format.specs.Lines.{with_feed};
ghost use Rattle.ck_format.specs.Made.{BeginsBy, add_text, after_lines, block_text, generator_of, made_header, made_text, nth_line};

use itoa::Buffer;
use rand_core::utils::NextWord;
use rand_pcg::Lcg64Xsh32;
use std::alloc::AllocError;

// The stream of the generator.
const STREAM: u64 = 54;

// Keys are below it.
const KEYS: u32 = 64;

// Numbers are below it.
const NUMBERS: u32 = 1000;

// Workers that the first format can have.
const FEW_WORKERS: u32 = 256;

// Appends bytes for which there is room.
fn append(out: &mut Vec<u8>, bytes: &[u8])
    requires { vec_len out.old + length bytes.now ≤ vec_capacity out.old }
    ensures items { out.new.items ≡ out.old.items ++ bytes.now }
    ensures len { vec_len out.new ≡ vec_len out.old + length bytes.now }
    ensures capacity { vec_capacity out.old ≤ vec_capacity out.new }
{
    match out.extend_from_slice(bytes) {
        Ok(()) => {}
        Err(_) => unreachable!(),
    }
}

/// Adds the line `add K N`. Where memory is refused, nothing is added.
pub(crate) fn add_line(k: u64, n: u64, out: &mut Vec<u8>) -> Result<(), AllocError>
    ensures ok { OnOk result (out.new.items ≡ out.old.items ++ with_feed (add_text k n)) }
    ensures err { OnErr result (out.new.items ≡ out.old.items) }
{
    let (mut key, mut number) = (Buffer::new(), Buffer::new());
    let (key, number) = (key.format(k).as_bytes(), number.format(n).as_bytes());
    out.reserve(key.len() + number.len() + b"add  \n".len())?;
    append(out, b"add ");
    append(out, key);
    append(out, b" ");
    append(out, number);
    append(out, b"\n");
    Ok(())
}

// Adds the command line of the generator's next two words.
fn add_next_line(generator: &mut Lcg64Xsh32, out: &mut Vec<u8>) -> Result<(), AllocError>
    ensures generator { generator.new ≡ after_lines 1 generator.old }
    ensures ok { OnOk result
        (out.new.items ≡ out.old.items ++ with_feed (nth_line generator.old 0)) }
    ensures err { OnErr result (out.new.items ≡ out.old.items) }
{
    let key = generator.next_word() % KEYS;
    let number = generator.next_word() % NUMBERS;
    add_line(u64::from(key), u64::from(number), out)
}

// Adds the line `worker` and so many command lines of the generator.
fn add_block(generator: &mut Lcg64Xsh32, lines: u32, out: &mut Vec<u8>) -> Result<(), AllocError>
    ensures generator { OnOk result (generator.new ≡ after_lines lines generator.old) }
    ensures ok { OnOk result (out.new.items ≡ out.old.items ++ block_text generator.old lines) }
    ensures err { OnErr result (BeginsBy out.old.items out.new.items) }
{
    out.extend_from_slice(b"worker\n")?;
    for _ in 0..lines {
        add_next_line(generator, out)?;
    }
    Ok(())
}

// Line 1, with its line feed.
fn header(workers: u32) -> &'static [u8]
    ensures { result.now ≡ with_feed (made_header workers) }
{
    if workers > FEW_WORKERS {
        b"cuckoo 2\n"
    } else {
        b"cuckoo 1\n"
    }
}

/// Adds the script of so many workers with so many command lines each, which the seed determines.
/// Where memory is refused, a beginning of it may have been added.
pub fn make_script(seed: u64, workers: u32, lines: u32, out: &mut Vec<u8>) -> Result<(), AllocError>
    requires some { 1 ≤ workers }
    requires most { workers ≤ 1024 }
    requires lines { workers * lines ≤ 1000000 }
    ensures ok { OnOk result (out.new.items ≡ out.old.items ++ made_text seed workers lines) }
    ensures err { OnErr result (BeginsBy out.old.items out.new.items) }
{
    let mut generator = Lcg64Xsh32::new(seed, STREAM);
    out.extend_from_slice(header(workers))?;
    for _ in 0..workers {
        add_block(&mut generator, lines, out)?;
    }
    out.extend_from_slice(b"end\n")
}
