//! The page, but for the text of the replay that stands in it: what comes before that, and what comes behind.
//!
//! It reads that text, so what it shows is what the text says.

/// What comes before the text.
pub static HEAD: &str = r##"<!DOCTYPE html>
<html lang="en"><head><meta charset="utf-8"><title>vshow</title>
<style>
:root{--bg:#fff;--fg:#1b1f24;--dim:#6a737d;--line:#d9dee4;--pick:#dbeafe;--new:#fff3bf;--read:#b8c2cc;--write:#7aa7d9;--memory:#c9b6e4;--service:#43a066;--typed:#2aa3a3;--refused:#e08a1e;--mistake:#d9480f;--fault:#c01c28}
@media (prefers-color-scheme:dark){:root{--bg:#14171b;--fg:#e3e7eb;--dim:#8b949e;--line:#30363d;--pick:#1f3a5f;--new:#4d4212;--read:#57606a;--write:#4f86c6;--memory:#8d75b8}}
*{box-sizing:border-box}
body{margin:0;height:100vh;display:flex;flex-direction:column;background:var(--bg);color:var(--fg);font:13px/1.45 system-ui,sans-serif}
header{padding:6px 10px;border-bottom:1px solid var(--line);display:flex;gap:6px 14px;flex-wrap:wrap;align-items:center}
header b{font-size:15px}
header input[type=search]{width:210px;font:inherit;padding:2px 6px}
label{white-space:nowrap}
button{font:inherit;padding:1px 8px}
#lanes{border-bottom:1px solid var(--line);display:block;width:100%;cursor:pointer}
main{flex:1;min-height:0;display:flex}
#list{flex:1 1 56%;min-width:0;overflow-y:scroll;position:relative;outline:none}
#rows{position:absolute;left:0;right:0;top:0}
.row{height:20px;padding:0 8px;white-space:nowrap;overflow:hidden;text-overflow:ellipsis;font:12px/20px ui-monospace,monospace;border-left:4px solid transparent;cursor:pointer}
.row .n{display:inline-block;width:6em;color:var(--dim);text-align:right;margin-right:1em}
.row.on{background:var(--pick)}
.row.flight .n{box-shadow:inset -3px 0 var(--service)}
.row em{font-style:normal;color:var(--fault);font-weight:600}
aside{flex:1 1 44%;min-width:0;overflow:auto;border-left:1px solid var(--line);padding:8px 12px}
aside h2{font-size:13px;margin:12px 0 4px}
aside h2:first-child{margin-top:0}
pre{font:12px/1.5 ui-monospace,monospace;white-space:pre-wrap;overflow-wrap:anywhere;margin:0}
.bad{color:var(--fault);font-weight:600}
.item{font:12px/1.5 ui-monospace,monospace;overflow-wrap:anywhere;padding:0 4px}
.new{background:var(--new)}
.ring{display:flex;gap:0;margin:4px 0;align-items:flex-start;overflow-x:auto}
.ring svg{flex:none}
.ring table{border-collapse:collapse;font:12px/18px ui-monospace,monospace;flex:none}
.ring caption{height:18px;text-align:left;padding:0 8px;white-space:nowrap}
.ring .done{margin-left:18px}
.ring .heads td{text-align:right}
.ring td{padding:0 8px;height:18px;border-bottom:1px solid var(--line)}
.ring tr.offer td:first-child{box-shadow:inset 4px 0 var(--write)}
.ring tr.took td:first-child{box-shadow:inset 4px 0 var(--service)}
.key{color:var(--dim)}
.link{cursor:pointer;text-decoration:underline dotted}
@media (max-width:900px){main{flex-direction:column}aside{border-left:0;border-top:1px solid var(--line)}}
</style></head><body>
<header><b>vshow</b><span id="sum"></span><span id="guests"></span><span id="kinds"></span>
<span><input id="find" type="search" placeholder="search ( / )"> <button id="back" title="previous trouble (N)">&#9650; trouble</button> <button id="next" title="next trouble (n)">&#9660; trouble</button></span></header>
<canvas id="lanes"></canvas>
<main><div id="list" tabindex="0"><div id="space"></div><div id="rows"></div></div><aside id="side"></aside></main>
<script type="text/plain" id="text">"##;

/// What comes behind it.
pub static TAIL: &str = r##"</script>
<script>
"use strict";
const raw=document.getElementById("text").textContent,$=id=>document.getElementById(id);
const plain=s=>s.replace(/&lt;/g,"<").replace(/&amp;/g,"&");
const KINDS=["read","write","memory","service","typed","refused","mistake","fault"];
const PLACES=["block","console","memory","disk","devices"];
const FAULTS=/^ {2}ends: (a fault|Jump|Index|Loop|TooMany|Table|Nested|Joined|NoIndirect|Range|TooLong)\b/;
// ---- the events of the text, by places in it
const at=[],ends=[],guest=[],place=[],kind=[],number=[],said=new Map(),board=[],mistakes=[];
// of each event whether anything is in flight of its guest; what is, by guest, disk and tag; and each flight: guest, asking, completion, disk and tag
const flight=[],asked=new Map(),flights=[];
// what stands before the tags of an event, where that is one of a further device
const diskOf=p=>p.startsWith("device ")?p+" ":"";
const tags=g=>{let m=asked.get(g);if(!m)asked.set(g,m=new Map());return m};
let guests=0,summary="";
function keyOf(line){const m=/^ {2}state (block|console|device \d+) (status|features|generation|hold|queue \d( descriptor \d+| used \d+| on offer)?)/.exec(line);return m?m[1]+" "+m[2]:null}
function read(){
  let p=0,e=-1,over=false;
  while(p<raw.length){
    let q=raw.indexOf("\n",p);if(q<0)q=raw.length;
    const c=raw.charCodeAt(p);
    if(c>=48&&c<=57){
      const line=raw.slice(p,Math.min(q,p+96)),m=/^(\d+) guest (\d+) (block|console|memory|disk|devices|device \d+): (\w+)/.exec(line);
      if(m){
        e=at.length;at.push(p);ends.push(q);number.push(+m[1]);const g=+m[2];guest.push(g);if(g>=guests)guests=g+1;
        if(!PLACES.includes(m[3]))PLACES.push(m[3]);
        place.push(PLACES.indexOf(m[3]));flight.push(tags(g).size>0);
        let k=m[3]==="memory"?2:m[4]==="reads"?0:/^(types|is|an?|gets|the)$/.test(m[4])?4:1;
        const whole=raw.slice(p,q);
        if(/ -> (outside memory|no |busy|idle)/.test(whole))k=5;
        else{
          const disk=diskOf(m[3]),own=t=>t.startsWith(disk+"tag ");
          const over=m[4]==="tag"?[disk+/: (tag \d+)/.exec(line)[1]]:m[4]==="drops"?[...tags(g).keys()].filter(own):[];
          for(const tag of over){const from=tags(g).get(tag);if(tags(g).delete(tag))flights.push([g,from,e,tag])}
        }
        kind.push(k);
      }else board.push(raw.slice(p,q));
    }else if(c===32&&e>=0&&!over){
      ends[e]=q;
      const d=raw.charCodeAt(p+2);
      if(d===115){const line=raw.slice(p,q),key=keyOf(line);
        if(key){const name=guest[e]+" "+key;let s=said.get(name);if(!s)said.set(name,s=[]);s.push([e,line])}}
      else if(d===109){kind[e]=Math.max(kind[e],6)}
      else if(d===101){
        const line=raw.slice(p,q);kind[e]=Math.max(kind[e],FAULTS.test(line)?7:3);
      }
      else if(d===32){const m=/: asks the host by (tag \d+) /.exec(raw.slice(p,q));if(m){tags(guest[e]).set(diskOf(PLACES[place[e]])+m[1],e);flight[e]=true}}
    }else if(c===101){summary=raw.slice(p,q);over=true}
    else if(over){const line=raw.slice(p,q),m=/^ {2}line (\d+),/.exec(line);if(m)mistakes.push([+m[1],line.trim()])}
    p=q+1;
  }
}
read();
for(const [g,m] of asked)for(const [tag,e] of m)flights.push([g,e,at.length-1,tag]);
flights.sort((a,b)=>a[1]-b[1]||a[3].localeCompare(b[3],"en",{numeric:true}));
const count=at.length,trouble=e=>kind[e]>=5;
const lineOf=e=>{let q=raw.indexOf("\n",at[e]);return raw.slice(at[e],q<0?raw.length:q)};
// ---- what is shown
let shown=[],cur=0;const hidden=new Set();
const ROW=20;
function filter(){
  shown=[];
  for(let e=0;e<count;e++)if(!hidden.has("g"+guest[e])&&!hidden.has("p"+place[e])&&!hidden.has("k"+kind[e]))shown.push(e);
  $("space").style.height=shown.length*ROW+"px";draw();lanes();
}
function rowOf(e){let a=0,b=shown.length;while(a<b){const m=(a+b)>>1;if(shown[m]<e)a=m+1;else b=m}return a}
function eventAt(line){let a=0,b=count;while(a<b){const m=(a+b)>>1;if(number[m]<line)a=m+1;else b=m}return a<count?a:count-1}
function draw(){
  const list=$("list"),top=Math.floor(list.scrollTop/ROW),many=Math.ceil(list.clientHeight/ROW)+1,rows=$("rows");
  rows.style.transform="translateY("+top*ROW+"px)";
  const parts=[];
  for(let i=top;i<Math.min(top+many,shown.length);i++)parts.push(rowFor(shown[i]));
  rows.replaceChildren(...parts);
}
function el(tag,cls,text){const x=document.createElement(tag);if(cls)x.className=cls;if(text!==undefined)x.textContent=text;return x}
function rowFor(e){
  const r=el("div","row"+(e===cur?" on":"")+(flight[e]?" flight":""));r.dataset.e=e;r.style.borderLeftColor="var(--"+KINDS[kind[e]]+")";
  const line=plain(lineOf(e)),gap=line.indexOf(" "),tab=line.indexOf("\t");
  r.append(el("span","n",line.slice(0,gap)),line.slice(gap+1,tab<0?undefined:tab));
  if(kind[e]>=6)r.append(" ",el("em","",KINDS[kind[e]]));
  return r;
}
function pick(e,still){
  if(!count)return;
  cur=Math.max(0,Math.min(count-1,e));
  const list=$("list"),y=rowOf(cur)*ROW;
  if(!still&&(y<list.scrollTop||y+ROW>list.scrollTop+list.clientHeight))list.scrollTop=Math.max(0,y-list.clientHeight/2);
  draw();side();lanes();
}
// ---- the state of a guest at an event
function stateAt(g,e){
  const out=new Map();
  for(const [name,list] of said){
    if(!name.startsWith(g+" "))continue;
    let a=0,b=list.length;while(a<b){const m=(a+b)>>1;if(list[m][0]<=e)a=m+1;else b=m}
    let i=a-1;if(i<0)continue;
    while(i+1<list.length&&list[i+1][0]===list[i][0])i++;
    out.set(name.slice(name.indexOf(" ")+1),{line:list[i][1].slice(8),e:list[i][0]});
  }
  for(const [key,v] of [...out]){
    const m=/^(.* queue \d)( descriptor| used| on offer)/.exec(key);if(!m)continue;
    const q=out.get(m[1]);
    if(!q||q.line.includes("not ready")||v.e<madeReady(g,m[1],e))out.delete(key);
  }
  return out;
}
// since which event a queue is ready
function madeReady(g,key,e){
  const list=said.get(g+" "+key)||[];let since=0;
  for(const [x,line] of list){if(x>e)break;if(line.includes("not ready"))since=x}
  return since;
}
function side(){
  const s=$("side");s.replaceChildren();
  if(!count){s.append(el("pre","",board.join("\n")));return}
  const e=cur,text=plain(raw.slice(at[e],ends[e])).split("\n"),head=text[0],tab=head.indexOf("\t");
  s.append(el("h2","","Line "+number[e]));
  const first=el("pre","",head.slice(head.indexOf(" ")+1,tab<0?undefined:tab));first.id="what";s.append(first);
  const rec=el("pre","key",tab<0?"":"record  "+head.slice(tab+1));rec.id="record";s.append(rec);
  const flown=el("div");flown.id="flight";s.append(flown);
  if(flight[e])for(const [g,a,b,tag] of flights){
    if(g!==guest[e]||a>=e||e>b)continue;
    const x=el("div","item link",tag+" in flight since line "+number[a]);x.onclick=()=>pick(a);flown.append(x);
  }
  const came=text.slice(1).filter(l=>!l.startsWith("  state"));
  if(came.length){s.append(el("h2","","What came of it"));for(const l of came)s.append(el("pre",/^ {2}(mistake|ends: [A-Z])/.test(l)?"bad":"",l.slice(2)))}
  const st=stateAt(guest[e],e);
  s.append(el("h2","","Guest "+guest[e]+" then"));
  const box=el("div");box.id="state";s.append(box);
  const took=new Set();for(const l of came){const m=/^ {2}chain/.test(l);if(m)for(const x of l.matchAll(/\((\d+)\)/g))took.add(+x[1])}
  for(const key of [...st.keys()].sort()){
    if(/ descriptor | used | on offer/.test(key))continue;
    const v=st.get(key);
    box.append(el("div","item"+(v.e===e?" new":""),plain(v.line)));
    if(/ queue \d$/.test(key)&&!v.line.includes("not ready"))box.append(ring(st,key,e,took,v));
  }
  if(!st.size)box.append(el("div","key","as after a reset"));
  if(mistakes.length){
    s.append(el("h2","","Mistakes of drivers"));
    for(const [line,t] of mistakes.slice(0,200)){const x=el("div","item link",plain(t));x.onclick=()=>pick(eventAt(line));s.append(x)}
  }
}
// a queue: what is on offer, its descriptors with a line from each to its next, and its used entries
function ring(st,key,e,took,q){
  const box=el("div","ring"),wrap=el("div","queue"),offer=[],o=st.get(key+" on offer"),isNew=v=>v.e===e?"new":"";
  wrap.dataset.key=key;
  if(o)for(const h of o.line.slice(o.line.indexOf(":")+1).trim().split(" "))if(h)offer.push(h);
  const rows=entries(st,key+" descriptor "),used=entries(st,key+" used "),packed=q.line.includes("packed");
  const served=lineOf(e).includes(key.slice(0,key.indexOf(" queue "))),place=new Map(rows.map((r,i)=>[r[0],i]));
  const high=Math.max(rows.length,offer.length,used.length)*18+18,table=titled("descriptors"),fresh=new Set(used.filter(u=>u[1].e===e).map(u=>u[0]));
  const chains=drawing(46,high);
  rows.forEach(([i,v],n)=>{
    const t=v.line.slice(v.line.indexOf(":")+2),tr=el("tr",(offer.includes(""+i)?"offer ":"")+(served&&(took.has(i)||packed&&fresh.has(i))?"took ":"")+isNew(v));
    tr.append(el("td","",i),el("td","",t));table.append(tr);
    const m=/, next (\d+)/.exec(t),next=m?+m[1]:packed&&/, next/.test(t)?(place.has(i+1)?i+1:0):null;
    if(next===null)return;
    const y=rowY(n),to=place.has(next)?rowY(place.get(next)):null,x=to===null?0:36-Math.min(32,Math.abs(to-y)/3);
    curve(chains,to===null?"M44 "+y+" h-14 m0 -4 v8":"M44 "+y+" C "+x+" "+y+" "+x+" "+to+" 44 "+to,to===null?"fault":to<=y?"mistake":offer.includes(""+i)?"write":"dim");
  });
  if(offer.length){
    const heads=titled("on offer"),links=drawing(40,high);
    offer.forEach((h,n)=>{
      const tr=el("tr",isNew(o));tr.append(el("td","",h));heads.append(tr);
      const to=place.get(+h);if(to!==undefined)curve(links,"M2 "+rowY(n)+" C 20 "+rowY(n)+" 20 "+rowY(to)+" 38 "+rowY(to),"write");
    });
    heads.className="heads";box.append(heads,links);
  }
  if(rows.length)box.append(chains,table);
  if(used.length){
    const done=titled("used");done.className="done";
    for(const [i,v] of used){const tr=el("tr",isNew(v));tr.append(el("td","",i),el("td","",v.line.slice(v.line.indexOf(":")+2)));done.append(tr)}
    box.append(done);
  }
  wrap.append(box);
  return wrap;
}
function entries(st,begin){
  const rows=[];
  for(const [k,v] of st)if(k.startsWith(begin))rows.push([+k.slice(begin.length),v]);
  return rows.sort((a,b)=>a[0]-b[0]);
}
function titled(text){const t=el("table"),c=el("caption","key",text);t.append(c);return t}
const rowY=n=>n*18+27;
function drawing(wide,high){const s=document.createElementNS("http://www.w3.org/2000/svg","svg");s.setAttribute("width",wide);s.setAttribute("height",high);return s}
function curve(svg,d,color){
  const p=document.createElementNS(svg.namespaceURI,"path");
  p.setAttribute("d",d);p.setAttribute("fill","none");p.setAttribute("stroke","var(--"+color+")");p.setAttribute("stroke-width","1.5");svg.append(p);
}
// ---- a lane for each guest
function lanes(){
  const c=$("lanes"),w=c.clientWidth||800,h=Math.max(1,guests)*16+4,d=devicePixelRatio||1;
  if(c.width!==Math.round(w*d)||c.height!==Math.round(h*d)){c.width=Math.round(w*d);c.height=Math.round(h*d);c.style.height=h+"px"}
  const x=c.getContext("2d");x.setTransform(d,0,0,d,0,0);x.clearRect(0,0,w,h);
  const css=getComputedStyle(document.documentElement),colors=KINDS.map(k=>css.getPropertyValue("--"+k));
  const most=new Int8Array(guests*w).fill(-1);
  for(const e of shown){const i=guest[e]*w+Math.min(w-1,Math.floor(e*w/count));if(kind[e]>most[i])most[i]=kind[e]}
  const wide=Math.max(1,w/count),flies=new Uint8Array(guests*w),X=e=>Math.min(w-1,Math.floor(e*w/count));
  for(const [g,a,b] of flights)flies.fill(1,g*w+X(a),g*w+X(b)+1);
  for(let g=0;g<guests;g++)for(let i=0;i<w;i++){const k=most[g*w+i];if(k>=0){x.fillStyle=colors[k];x.fillRect(i,g*16+3,wide,12)}}
  x.fillStyle=colors[3];
  for(let g=0;g<guests;g++)for(let i=0;i<w;i++)if(flies[g*w+i])x.fillRect(i,g*16+16,1,2);
  x.fillStyle=css.getPropertyValue("--fg");x.fillRect(Math.floor(cur*w/Math.max(1,count)),0,1.5,h);
}
// ---- choosing
function box(where,id,text,color){
  const l=el("label"),i=el("input");i.type="checkbox";i.checked=true;i.id=id;
  i.onchange=()=>{i.checked?hidden.delete(id):hidden.add(id);filter()};
  const t=el("span","",text);if(color)t.style.borderBottom="3px solid var(--"+color+")";
  l.append(i,t," ");where.append(l);
}
for(let g=0;g<guests;g++)if(guest.includes(g))box($("guests"),"g"+g,"guest "+g);
PLACES.forEach((p,i)=>{if(place.includes(i))box($("guests"),"p"+i,p)});
KINDS.forEach((k,i)=>box($("kinds"),"k"+i,k,k));
$("sum").textContent=summary.replace("end: ","");
function seek(step,test){for(let i=rowOf(cur)+(shown[rowOf(cur)]===cur||step<0?step:0);i>=0&&i<shown.length;i+=step)if(test(shown[i])){pick(shown[i]);return true}return false}
function search(step){
  const q=$("find").value.replace(/&/g,"&amp;").replace(/</g,"&lt;");if(!q)return;
  const found=seek(step,e=>{const i=raw.indexOf(q,at[e]);return i>=0&&i<ends[e]});
  $("find").style.outline=found?"":"2px solid var(--fault)";
}
$("find").onkeydown=k=>{if(k.key==="Enter"){search(k.shiftKey?-1:1);k.preventDefault()}else if(k.key==="Escape")$("list").focus();k.stopPropagation()};
$("next").onclick=()=>seek(1,trouble);$("back").onclick=()=>seek(-1,trouble);
$("list").onscroll=()=>requestAnimationFrame(draw);
$("list").onclick=k=>{const r=k.target.closest(".row");if(r)pick(+r.dataset.e,true)};
$("lanes").onclick=k=>{
  const c=$("lanes"),b=c.getBoundingClientRect(),g=Math.max(0,Math.min(guests-1,Math.floor((k.clientY-b.top-2)/16))),want=Math.floor((k.clientX-b.left)/b.width*count);
  let best=-1;for(const e of shown)if(guest[e]===g&&(best<0||Math.abs(e-want)<Math.abs(best-want)))best=e;
  if(best>=0)pick(best);
};
document.onkeydown=k=>{
  if(k.ctrlKey||k.metaKey||k.altKey)return;
  const page=Math.max(1,Math.floor($("list").clientHeight/ROW)-1),r=rowOf(cur),go=n=>{if(shown.length)pick(shown[Math.max(0,Math.min(shown.length-1,n))])};
  const act={ArrowDown:()=>go(r+1),j:()=>go(r+1),ArrowUp:()=>go(r-1),k:()=>go(r-1),PageDown:()=>go(r+page),PageUp:()=>go(r-page),Home:()=>go(0),End:()=>go(shown.length-1),n:()=>seek(1,trouble),N:()=>seek(-1,trouble),"/":()=>$("find").focus()}[k.key];
  if(act){act();k.preventDefault()}
};
addEventListener("resize",()=>{draw();lanes()});
filter();pick(0);$("list").focus();document.body.dataset.ready=count;
</script></body></html>
"##;
