//! The range of a cluster, put behind all others.

ghost use Rattle.std.specs.Prelude.{OnOk, OnErr};
ghost use Rattle.nt_book.specs.Appending.{IsAppendable};
ghost use Rattle.nt_append.specs.Appending.{GainsCluster, MayAppendRange, AppendsRange, FailsAtRange};

use nt_book::{Book, ClusterMeta};
use nt_commit::write_key;
use nt_outside::{Disk, Failed};
use nt_pages::ClusterImage;

/// Enters a cluster whose range is filled.
fn enter(book: &mut Book, meta: &mut ClusterMeta)
    requires { IsAppendable book.old meta.old }
    ensures { GainsCluster meta.old book.old book.new }
{
    book.keeps();
    let context = meta.context;
    let cluster = book.append(meta);
    book.settle(cluster, context);
}

/// Appends an image with the key of its place, and enters its cluster, whose range is filled. If the
/// disk fails the fault is entered for its context.
pub(crate) fn append_range<D: Disk>(
    disk: &mut D,
    book: &mut Book,
    image: &mut ClusterImage,
) -> Result<(), Failed>
    requires { MayAppendRange (D.state disk.old) book.old image.old }
    ensures ok { OnOk result (AppendsRange image.old (D.state disk.old) (D.state disk.new) book.old book.new) }
    ensures err { OnErr result (FailsAtRange image.old (D.state disk.old) (D.state disk.new) book.old book.new) }
{
    write_key(image, book.end());
    match disk.append(image.bytes.as_slice()) {
        Ok(()) => {
            enter(book, &mut image.meta);
            Ok(())
        }
        Err(Failed) => {
            book.fault(image.meta.context, disk.faults());
            Err(Failed)
        }
    }
}
