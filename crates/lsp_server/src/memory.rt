// Memory that large messages leave free.
use std::alloc::Global;

/// How many bytes the block has. glibc learns from blocks of up to 32 MB, its own bookkeeping included, so this is 64
/// KB less.
const BLOCK_SIZE: usize = 33_488_896;

/// Makes the C library keep freed memory for the messages to come: up to 64 MB at the end of each heap. A program has a
/// heap for each thread that allocates. Call it once, when a program starts.
///
/// Without this call glibc returns freed memory to the system soon after each large message, and the system clears
/// every page again for the next one. With messages of 1 MB this is up to half of the processor time. After a block of
/// 32 MB was freed, glibc keeps more (mallopt(3), `M_MMAP_THRESHOLD`). This call allocates such a block and frees it.
/// It touches none of it, so the program doesn't grow. Nothing changes if the allocation fails, or with another C
/// library.
pub fn keep_freed_memory(alloc: Global) {
    let _ = Vec::<u8>::with_capacity(alloc, BLOCK_SIZE);
}
