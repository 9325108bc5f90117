// Blocks and files for the tests, and what is fetched from them.
#[cfg(test)]
pub(crate) mod tests {
    use codes::Refusal;
    use dayfile::{DayFile, block_check};
    use source::Source;
    use std::test::Fail;

    pub(crate) type Block = [u8; 512];

    pub(crate) type File = [u8; 1536];

    // A block with its check made right.
    pub(crate) fn sealed(mut block: Block) -> Block {
        let check = block_check(&block).to_be_bytes();
        block[510..].copy_from_slice(&check);
        block
    }

    // The session, and the packet as far as there is room.
    pub(crate) fn block(session: &[u8; 10], packet: &[u8]) -> Block {
        let mut block = [0; 512];
        block[..10].copy_from_slice(session);
        for (room, byte) in block[10..].iter_mut().zip(packet) {
            *room = *byte;
        }
        sealed(block)
    }

    pub(crate) fn file(first: &Block, second: &Block, third: &Block) -> File {
        let mut file = [0; 1536];
        for (room, block) in file.chunks_exact_mut(512).zip([first, second, third]) {
            room.copy_from_slice(block);
        }
        file
    }

    // The first byte of the session.
    pub(crate) fn opened(bytes: &[u8]) -> Result<u8, Refusal> {
        DayFile::open(bytes).map(|file| file.session().bytes()[0])
    }

    // The letter of a message of 5 bytes, where one is held; the bytes behind it are left alone, and all where none is.
    fn letter(file: &mut DayFile<'_>, number: u32) -> Result<Option<u8>, Fail> {
        let mut out = [b'.'; 80];
        match file.fetch(number, &mut out) {
            Some(5) if out[5..] == [b'.'; 75] => Ok(Some(out[4])),
            None if out == [b'.'; 80] => Ok(None),
            _ => Err(Fail::new("another length, or more is written")),
        }
    }

    // The letters of four messages, fetched one after the other.
    pub(crate) fn letters(bytes: &[u8], numbers: [u32; 4]) -> Result<[Option<u8>; 4], Fail> {
        let mut file = DayFile::open(bytes).map_err(|_| Fail::new("refused"))?;
        // one by one, since a closure of `map` has no `?`
        let [a, b, c, d] = numbers;
        Ok([
            letter(&mut file, a)?,
            letter(&mut file, b)?,
            letter(&mut file, c)?,
            letter(&mut file, d)?,
        ])
    }
}
