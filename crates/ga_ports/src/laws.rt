//! What holds of all stretches of calls. Each function's contract is the law, and its body is empty.

ghost use Rattle.std.specs.Prelude.{◌≡◌, ◌-◌, ◌^◌, ◌<◌, List, ℕ, Some};
ghost use Rattle.std.specs.List.{Contains};
ghost use Rattle.ga_counters.specs.Counts.{raised, NoneDue};
ghost use Rattle.ga_ports.specs.Files.{FilesView};
ghost use Rattle.ga_ports.specs.Outs.{OutsView};
ghost use Rattle.ga_ports.specs.Sure.{AreSureFiles, NoFileFaults, AreSureOuts, NoOutFaults};
ghost use Rattle.ga_ports.specs.ShortFiles.{BehindCutFallsShort, ShortFilesState, short_files_view};
ghost use Rattle.ga_ports.specs.SureFiles.{SureFilesState, sure_files_view};
ghost use Rattle.ga_ports.specs.SureOuts.{SureOutsState, sure_outs_view};
ghost use Rattle.ga_ports.specs.Trace.{FilesTrace, FilesStay, FilesFailAsListed, OutsTrace, OutsStay, OutsFailAsListed};

/// No call of `Files` changes the contents or the list of calls, and no count falls.
pub fn files_stay()
    ensures { (old new : FilesView) → FilesTrace old new → FilesStay old new }
{}

/// Where it is told which calls are listed, the count of faults of `Files` rises exactly where one of them was made or
/// a name was absent.
pub fn files_fail_as_listed()
    ensures { (listed : List ℕ) (old new : FilesView) → old.listed ≡ Some listed → FilesTrace old new
        → FilesFailAsListed listed old new }
{}

/// No call of `Outs` changes the list of calls, no count falls, and no room widens.
pub fn outs_stay()
    ensures { (old new : OutsView) → OutsTrace old new → OutsStay old new }
{}

/// Where it is told which calls are listed, a target's count of faults rises only where one of them was made, its room
/// is used up or a call found no memory, and some target's does where one was made or found none.
pub fn outs_fail_as_listed()
    ensures { (listed : List ℕ) (old new : OutsView) → old.listed ≡ Some listed → OutsTrace old new
        → OutsFailAsListed listed old new }
{}

/// No call from now on is due to fail where each that is listed was made already.
pub fn none_due()
    ensures { (listed : List ℕ) (calls : ℕ) → ((call : ℕ) → Contains listed call → call < raised calls 1)
        → NoneDue (Some listed) calls }
{}

/// Where no call is listed and each name gives a file, no trace of calls of `Files` has a fault. Each state of
/// `SureFiles` is such a one.
pub fn sure_files_have_no_faults()
    ensures view { (files : SureFilesState) → AreSureFiles (sure_files_view files) }
    ensures calls { (old new : FilesView) → AreSureFiles old → FilesTrace old new → NoFileFaults old new }
{}

/// Over files that are shorter than the size that they answer, whatever was called before, each read from a place after
/// what they have, and below the size last answered, is a short one. No call of theirs is a fault.
pub fn short_files_fall_short()
    ensures view { (files : ShortFilesState) → AreSureFiles (short_files_view files) }
    ensures short { BehindCutFallsShort }
{}

/// Where no call is listed and no target has a room, a trace of calls of `Outs` has no fault unless one found no
/// memory. Each state of `SureOuts` is such a one, and tells that none found no memory.
pub fn sure_outs_have_no_faults()
    ensures view { (outs : SureOutsState) → AreSureOuts (sure_outs_view outs) }
    ensures calls { (old new : OutsView) → AreSureOuts old → OutsTrace old new → new.starved ≡ old.starved
        → old.starved < 2 ^ 64 - 1 → NoOutFaults old new }
{}
