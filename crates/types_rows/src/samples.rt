//! Whole protocols and their lemmas: a lock, and German's protocol.

/// A lock with four states, and mutual exclusion.
pub const MUTEX: &[u8] = b"const NODE_NUM : 2;
type NODE : scalarset(NODE_NUM);
     LOC : enum { I, T, C, E };
var n : array [NODE] of LOC;
    x : boolean;
startstate \"Init\"
  for i : NODE do n[i] := I; end;
  x := true;
end;
ruleset i : NODE do
  rule \"Try\"  n[i] = I ==> n[i] := T; end;
  rule \"Crit\" n[i] = T & x = true ==> n[i] := C; x := false; end;
  rule \"Exit\" n[i] = C ==> n[i] := E; end;
  rule \"Idle\" n[i] = E ==> n[i] := I; x := true; end;
end;
ruleset i : NODE; j : NODE do
  invariant \"Mutex\" i != j -> !(n[i] = C & n[j] = C);
end;
";

/// German's protocol: caches of one line, and three channels for each.
pub const GERMAN: &[u8] = b"const NODE_NUM : 3;
      DATA_NUM : 2;
type NODE : scalarset(NODE_NUM);
     DATA : scalarset(DATA_NUM);
     CACHE_STATE : enum { I, S, E };
     CACHE : record State : CACHE_STATE; Data : DATA; end;
     MSG_CMD : enum { Empty, ReqS, ReqE, Inv, InvAck, GntS, GntE };
     MSG : record Cmd : MSG_CMD; Data : DATA; end;
var Cache : array [NODE] of CACHE;
    Chan1, Chan2, Chan3 : array [NODE] of MSG;
    InvSet, ShrSet : array [NODE] of boolean;
    ExGntd : boolean;
    CurCmd : MSG_CMD;
    CurPtr : NODE;
    MemData, AuxData : DATA;
ruleset d : DATA do
  startstate \"Init\"
    for i : NODE do
      Chan1[i].Cmd := Empty; Chan2[i].Cmd := Empty; Chan3[i].Cmd := Empty;
      Cache[i].State := I; InvSet[i] := false; ShrSet[i] := false;
    end;
    ExGntd := false; CurCmd := Empty; MemData := d; AuxData := d;
  end;
end;
ruleset i : NODE; d : DATA do
  rule \"Store\" Cache[i].State = E ==> Cache[i].Data := d; AuxData := d; end;
end;
ruleset i : NODE do
  rule \"SendReqS\" Cache[i].State = I & Chan1[i].Cmd = Empty ==>
    Chan1[i].Cmd := ReqS; end;
  rule \"SendReqE\" (Cache[i].State = I | Cache[i].State = S) & Chan1[i].Cmd = Empty ==>
    Chan1[i].Cmd := ReqE; end;
  rule \"RecvReqS\" CurCmd = Empty & Chan1[i].Cmd = ReqS ==>
    CurCmd := ReqS; CurPtr := i; Chan1[i].Cmd := Empty;
    for j : NODE do InvSet[j] := ShrSet[j]; end; end;
  rule \"RecvReqE\" CurCmd = Empty & Chan1[i].Cmd = ReqE ==>
    CurCmd := ReqE; CurPtr := i; Chan1[i].Cmd := Empty;
    for j : NODE do InvSet[j] := ShrSet[j]; end; end;
  rule \"SendInv\" Chan2[i].Cmd = Empty & InvSet[i] = true
      & (CurCmd = ReqE | CurCmd = ReqS & ExGntd = true) ==>
    Chan2[i].Cmd := Inv; InvSet[i] := false; end;
  rule \"SendInvAck\" Chan2[i].Cmd = Inv & Chan3[i].Cmd = Empty ==>
    Chan2[i].Cmd := Empty; Chan3[i].Cmd := InvAck;
    if Cache[i].State = E then Chan3[i].Data := Cache[i].Data; end;
    Cache[i].State := I; undefine Cache[i].Data; end;
  rule \"RecvInvAck\" Chan3[i].Cmd = InvAck & CurCmd != Empty ==>
    Chan3[i].Cmd := Empty; ShrSet[i] := false;
    if ExGntd = true then
      ExGntd := false; MemData := Chan3[i].Data; undefine Chan3[i].Data;
    end; end;
  rule \"SendGntS\" CurCmd = ReqS & CurPtr = i & Chan2[i].Cmd = Empty & ExGntd = false ==>
    Chan2[i].Cmd := GntS; Chan2[i].Data := MemData; ShrSet[i] := true;
    CurCmd := Empty; undefine CurPtr; end;
  rule \"SendGntE\" CurCmd = ReqE & CurPtr = i & Chan2[i].Cmd = Empty & ExGntd = false
      & forall j : NODE do ShrSet[j] = false end ==>
    Chan2[i].Cmd := GntE; Chan2[i].Data := MemData; ShrSet[i] := true;
    ExGntd := true; CurCmd := Empty; undefine CurPtr; end;
  rule \"RecvGntS\" Chan2[i].Cmd = GntS ==>
    Cache[i].State := S; Cache[i].Data := Chan2[i].Data;
    Chan2[i].Cmd := Empty; undefine Chan2[i].Data; end;
  rule \"RecvGntE\" Chan2[i].Cmd = GntE ==>
    Cache[i].State := E; Cache[i].Data := Chan2[i].Data;
    Chan2[i].Cmd := Empty; undefine Chan2[i].Data; end;
end;
ruleset i : NODE; j : NODE do
  invariant \"CtrlProp\" i != j -> (Cache[i].State = E -> Cache[j].State = I);
end;
invariant \"MemProp\" ExGntd = false -> MemData = AuxData;
ruleset i : NODE do
  invariant \"CacheProp\" Cache[i].State != I -> Cache[i].Data = AuxData;
end;
";
