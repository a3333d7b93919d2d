//! How an input in memory is cut into pieces, as one from a network is.
ghost use Rattle.std.specs.Prelude.{◌≡◌};
ghost use Rattle.link_io.specs.Pieces.{piece_room};

/// At most how many of `room` bytes the take at this index, from 0, may answer.
pub(super) fn room_for(pieces: &[usize], index: u64, room: usize) -> usize
    ensures { result ≡ piece_room pieces.now index room }
{
    let last = pieces.len().saturating_sub(1);
    match pieces.get(last.min(index as usize)) {
        None | Some(0) => room,
        Some(piece) => room.min(*piece),
    }
}
