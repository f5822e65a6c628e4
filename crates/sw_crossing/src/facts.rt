//! What a bound says of a type.
ghost use Rattle.std.specs.Thread.{IsSend, IsSync};

use std::marker::PhantomData;

// The values of a type may go to another thread.
pub(crate) fn sent<T: Send>(_of: PhantomData<T>)
    ensures { IsSend T.row }
{}

// Threads may share the values of a type.
pub(crate) fn shared<T: Sync>(_of: PhantomData<T>)
    ensures { IsSync T.row }
{}
