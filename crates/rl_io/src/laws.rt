ghost use Rattle.std.specs.Prelude.{◌≡◌, ℕ, List, [], IsSome};
ghost use Rattle.rl_io.specs.Files.{file_under};
ghost use Rattle.rl_io.specs.MemShelf.{HeldFiles, faults_under};

/// Where no call of a shelf in memory is to fail, there are never faults under a name that it holds.
pub fn no_planned_fault()
    ensures { (s : HeldFiles) (name : List ℕ) → s.fails ≡ [] → IsSome (file_under name s.files)
        → faults_under s name ≡ 0 }
{}
