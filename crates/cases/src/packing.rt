// Bytes packed at each width.
use crate::page::Page;
use content::pack;
use schedule::text::Listing;
use std::io;

fn pack_case(page: &mut Page, width: u64, bytes: &[u8], room: usize) -> io::Result<()> {
    let mut buffer = vec![in page.rt.alloc(); 7u64; room]?;
    let answer = pack(width, bytes, &mut buffer);
    let (count, after) = (bytes.len(), Listing(&buffer));
    match answer {
        Ok(n) => page.line(format_args!(
            "pack {count} bytes at {width} into {room}: {n} written,{after}"
        )),
        Err(fault) => page.line(format_args!(
            "pack {count} bytes at {width} into {room}: {fault},{after}"
        )),
    }
}

// Bytes of every length from 0 to 7 at each width, and the refusals.
pub(crate) fn pack_cases(page: &mut Page) -> io::Result<()> {
    let bytes = [0x41u8, 0x80, 0xff, 0, 7, 0x80, 0x10];
    for width in [5, 8, 12, 16, 24] {
        for count in 0..8usize {
            pack_case(page, width, &bytes[0..count], 8)?;
        }
    }
    for (width, room) in [(8, 6), (16, 3), (24, 2), (24, 3)] {
        pack_case(page, width, &bytes, room)?;
    }
    Ok(())
}
