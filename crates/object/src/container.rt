// The container at an offset, looked at again once it is open: where its references stand and how many there are.
ghost use Rattle.std.specs.Prelude.{◌≡◌};
ghost use Rattle.object.specs.Container.{container_at};

use crate::content::{Content, Extent, head_at};

#[derive(Clone, Copy)]
pub enum Container {
    Array(Extent),
    Dictionary(Extent),
    NoContainer,
}

// The head is read in one place and before the marker is looked at, so that the compiler puts this small function into its callers.
#[tactic(auto, using(crate::proofs::Rules::containers), unfolding(crate::specs::Container::array_of, crate::specs::Container::dictionary_of))]
pub fn container_at(file: &[u8], offset: usize) -> Container
    ensures { result ≡ container_at file.now offset }
{
    if file.len() < 32 {
        return Container::NoContainer;
    }
    if file.len() - 32 <= offset {
        return Container::NoContainer;
    }
    let marker = file[offset];
    let Content::Fits(extent) = head_at(file, offset, marker % 16) else {
        return Container::NoContainer;
    };
    match marker {
        0xa0..=0xaf => Container::Array(extent),
        0xd0..=0xdf => Container::Dictionary(extent),
        _ => Container::NoContainer,
    }
}
