//! What a directory stands for, as a law.
ghost use Rattle.std.specs.Prelude.{◌≡◌, map, Contains};
ghost use Rattle.pt_host.specs.Disk.{Files};
ghost use Rattle.pt_host.specs.Listed.{FileList};
ghost use Rattle.pt_left.specs.Spelling.{IsMap};
ghost use Rattle.pt_left.specs.Left.{Left, serials_name};

/// A directory stands for one map at most, and each map that one stands for has a `serials.cnt`. It does nothing.
pub fn stands_for_one_map()
    ensures once { (files : Files) (a b : FileList) → Left files a → Left files b → a ≡ b }
    ensures map { (files : Files) (left : FileList) → Left files left → IsMap left }
    ensures serials { (files : Files) (left : FileList) → Left files left → Contains (map (λ file. file.0) left) serials_name }
{}
