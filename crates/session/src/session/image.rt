//! The image, while the session lives and after it.

ghost use Rattle.std.specs.Prelude.{◌≡◌};

use crate::session::Session;
use std::alloc::Allocator;

impl<A: Allocator> Session<A> {
    /// The image's bytes as they stand. Each write that a guest was told of is in them, and of a service that is paused
    /// what was served.
    pub fn image(&self) -> &[u8]
        ensures { result.now ≡ self.now.image }
    {
        self.board.image().bytes()
    }

    /// Ends the session, and gives the image's bytes as they stand.
    pub fn into_image(self) -> Vec<u8, A>
        ensures { result.items ≡ self.image }
    {
        let Session {
            board,
            outputs: _,
            paused: _,
            budget: _,
        } = self;
        board.into_image().into_bytes()
    }
}
