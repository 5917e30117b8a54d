//! Settles the frames that it reads, and prints the answer.
#![tactic(auto)]

use settling::settle::settle;
use std::io;
use std::io::{Read, Write};

/// One byte more than a text may have: what follows cannot change the answer.
const MOST_READ: usize = 16_385;

/// Reads up to the input's end, or until the buffer is full, and answers how many bytes there are.
// Not read_to_end: it offers a read less than the room that is left, and what does not fit of a packet is lost.
fn read_input<R: Read>(input: &mut R, buffer: &mut [u8]) -> io::Result<usize> {
    let mut count = 0;
    // Each turn reads a byte at least.
    for _ in 0..MOST_READ {
        if count >= buffer.len() {
            break;
        }
        let more = input.read(&mut buffer[count..])?;
        if more == 0 {
            break;
        }
        count += more;
    }
    Ok(count)
}

fn main(rt: HostRuntime) -> io::Result<()> {
    let mut text = vec![in rt.alloc(); 0; MOST_READ]?;
    let count = read_input(&mut rt.stdin(), text.as_mut_slice())?;
    text.truncate(count);
    let answer = settle(rt.alloc(), text.as_slice())?;
    rt.stdout().write_all(answer.as_slice())
}

#[cfg(test)]
mod tests {
    use super::*;
    use std::test::Fail;

    /// Packets, each of its own number: what of one does not fit the room of its read is lost.
    #[derive(Drop)]
    struct Packets {
        sizes: [usize; 3],
        next: usize,
    }

    impl Read for Packets {
        fn read(&mut self, room: &mut [u8]) -> io::Result<usize> {
            let Some(size) = self.sizes.get(self.next) else {
                return Ok(0);
            };
            let size = (*size).min(room.len());
            self.next += 1;
            room[..size].fill(self.next as u8);
            Ok(size)
        }
    }

    #[test]
    fn packets_are_read_whole(rt: HostRuntime) -> Result<(), Fail> {
        let mut packets = Packets {
            sizes: [600, 9_000, 5_000],
            next: 0,
        };
        let mut buffer = [0; MOST_READ];
        assert_eq!(rt; read_input(&mut packets, &mut buffer)?, 14_600);
        assert_eq!(rt; (buffer[0], buffer[599]), (1, 1));
        assert_eq!(rt; (buffer[600], buffer[9_599]), (2, 2));
        assert_eq!(rt; (buffer[9_600], buffer[14_599]), (3, 3));
        Ok(())
    }

    #[test]
    fn no_more_is_read_than_needed(rt: HostRuntime) -> Result<(), Fail> {
        let mut packets = Packets {
            sizes: [16_000, 386, 1],
            next: 0,
        };
        let mut buffer = [0; MOST_READ];
        assert_eq!(rt; read_input(&mut packets, &mut buffer)?, MOST_READ);
        assert_eq!(rt; packets.next, 2);
        Ok(())
    }
}
