//! Bytes put into a file in memory, within the room that it has.
ghost use Rattle.std.specs.Prelude.{◌≡◌, ◌≤◌, ◌<◌, ◌+◌, ◌-◌, min, length, take, drop, replicate, vec_capacity};
ghost use Rattle.dap_disk.specs.Disk.{written};
ghost use Rattle.dap_disk.specs.History.{change_of, changes_of, puts};
ghost use Rattle.dap_disk.specs.Images.{greatest};

use crate::Image;
use crate::event::Event;

/// Puts bytes at a place, over what is there and past the end.
pub(crate) fn write_over(file: &mut Vec<u8>, at: usize, bytes: &[u8])
    requires within { at ≤ length file.old.items }
    requires room { at + length bytes.now ≤ vec_capacity file.old }
    ensures bytes { file.new.items ≡ written at bytes.now file.old.items }
    ensures capacity { vec_capacity file.old ≤ vec_capacity file.new }
{
    if bytes.len() <= file.len() - at {
        file[at..at + bytes.len()].copy_from_slice(bytes);
        return;
    }
    file.truncate(at);
    match file.extend_from_slice(bytes) {
        Ok(()) => {}
        Err(_) => unreachable!(),
    }
}

/// Puts a byte n times at a place, likewise.
fn fill_over(file: &mut Vec<u8>, at: usize, n: usize, byte: u8)
    requires within { at ≤ length file.old.items }
    requires room { at + n ≤ vec_capacity file.old }
    ensures bytes { file.new.items ≡ written at (replicate n byte) file.old.items }
    ensures capacity { vec_capacity file.old ≤ vec_capacity file.new }
{
    if n <= file.len() - at {
        file[at..at + n].fill(byte);
        return;
    }
    file.truncate(at);
    match file.resize(at + n, byte) {
        Ok(()) => {}
        Err(_) => unreachable!(),
    }
}

/// What the rule leaves of one call.
fn put_event(file: &mut Vec<u8>, image: Image, event: &Event)
    requires room { greatest (length file.old.items) (change_of event.now) ≤ vec_capacity file.old }
    ensures bytes { file.new.items ≡ puts image (change_of event.now) file.old.items }
    ensures capacity { vec_capacity file.old ≤ vec_capacity file.new }
{
    match (image, event) {
        (Image::New, Event::Wrote(at, bytes)) => {
            if *at <= file.len() {
                write_over(file, *at, bytes);
            }
        }
        (Image::New, Event::Cut(len)) => file.truncate(*len),
        (Image::Fill(byte), Event::Wrote(at, bytes)) => {
            if *at <= file.len() {
                fill_over(file, *at, bytes.len(), byte);
            }
        }
        (Image::Fill(byte), Event::Cut(len)) => {
            if *len < file.len() {
                let end = file.len();
                file[*len..end].fill(byte);
            }
        }
        (Image::Old, _) => {}
        (_, Event::Settled(_)) => {}
    }
}

/// What the rule leaves after these calls.
pub(crate) fn put_events(file: &mut Vec<u8>, image: Image, events: &[Event])
    requires room { greatest (length file.old.items) (changes_of events.now) ≤ vec_capacity file.old }
    ensures bytes { file.new.items ≡ puts image (changes_of events.now) file.old.items }
    ensures fits { length file.new.items ≤ vec_capacity file.new }
    ensures capacity { vec_capacity file.old ≤ vec_capacity file.new }
{
    for event in events {
        put_event(file, image, event);
    }
}

/// Copies what stands from this place on into a buffer, as far as it goes.
pub(crate) fn read_from(bytes: &[u8], at: u64, buf: &mut [u8]) -> usize
    ensures within { result ≤ length buf.old }
    ensures bytes { take result buf.new ≡ take result (drop at bytes.now) }
    ensures there { result ≤ length bytes.now - at }
    ensures some { 0 < length buf.old → at < length bytes.now → 0 < result }
    ensures full { result ≡ min (length buf.old) (length bytes.now - at) }
{
    if at >= bytes.len() as u64 {
        return 0;
    }
    let from = at as usize;
    let n = buf.len().min(bytes.len() - from);
    buf[..n].copy_from_slice(&bytes[from..from + n]);
    n
}
