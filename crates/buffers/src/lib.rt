//! Stores to the front of a lent buffer.
#![tactic(auto)]

ghost use Rattle.std.specs.Prelude.{◌≡◌, ◌≤◌, length};
ghost use Rattle.laws.specs.Buffers.{written};

/// Stores values to the front of a buffer, which keeps what it held past them.
// By a loop: `copy_from_slice` of lent memory asks `memmove` of whoever links the archive.
pub fn store<T: Copy>(values: &[T], buffer: &mut [T])
    requires { length values.now ≤ length buffer.old }
    ensures { buffer.new ≡ written values.now buffer.old }
{
    for (i, value) in values.iter().enumerate() {
        buffer[i] = *value;
    }
}

#[cfg(test)]
mod tests {
    use super::*;

    #[test]
    fn the_rest_is_kept(rt: HostRuntime) {
        let mut buffer = [7; 4];
        store(&[1, 2], &mut buffer);
        assert_eq!(rt; buffer, [1, 2, 7, 7]);
        store(&[], &mut buffer);
        assert_eq!(rt; buffer, [1, 2, 7, 7]);
        store(&[3, 4, 5, 6], &mut buffer);
        assert_eq!(rt; buffer, [3, 4, 5, 6]);
    }
}
